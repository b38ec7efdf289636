use crate::{Bias, CastOp, Cls, InfixOp, Name, Names, Number, Pat, PrefixOp, Shape, TypeExpr};
use ddl_base::{Bytes, Span};

/// An expression: a grammar, a value or a class.
#[cycle(expr)]
#[derive(Drop)]
pub enum Expr {
    Infix {
        op: InfixOp,
        left: Box<Expr>,
        right: Box<Expr>,
        span: Span,
    },
    /// `^ e`
    Pure {
        value: Box<Expr>,
        span: Span,
    },
    If {
        condition: Box<Expr>,
        then: Box<Expr>,
        otherwise: Box<Expr>,
        span: Span,
    },
    /// `for (state = start; x in list) body`
    For {
        state: Name,
        start: Box<Expr>,
        names: Names,
        list: Box<Expr>,
        body: Box<Expr>,
        span: Span,
    },
    /// `map (x in list) body`
    Map {
        names: Names,
        list: Box<Expr>,
        body: Box<Expr>,
        span: Span,
    },
    /// `e is tag`
    Is {
        value: Box<Expr>,
        shape: Shape,
        span: Span,
    },
    Prefix {
        op: PrefixOp,
        operand: Box<Expr>,
        span: Span,
    },
    Cast {
        op: CastOp,
        value: Box<Expr>,
        target: TypeExpr,
        span: Span,
    },
    /// A grammar with at least one argument.
    CallGrammar {
        name: Name,
        args: Vec<Expr>,
        span: Span,
    },
    /// A function with at least one argument.
    CallValue {
        name: Name,
        args: Vec<Expr>,
        span: Span,
    },
    /// `just e`
    Just {
        content: Box<Expr>,
        span: Span,
    },
    /// `Many bound p` or `Many? bound p`
    Many {
        bias: Bias,
        bound: Bound,
        body: Box<Expr>,
        span: Span,
    },
    /// `Optional p` or `Optional? p`
    Optional {
        bias: Bias,
        body: Box<Expr>,
        span: Span,
    },
    /// `e.x`
    Select {
        value: Box<Expr>,
        field: Name,
        span: Span,
    },
    Num(Number),
    Char {
        value: u8,
        span: Span,
    },
    Text {
        bytes: Bytes,
        span: Span,
    },
    True(Span),
    False(Span),
    Nothing(Span),
    /// The name of a grammar.
    Upper(Name),
    /// The name of a value.
    Lower(Name),
    /// The name of a class.
    Class(Name),
    /// `$[c]`
    Set {
        class: Cls,
        span: Span,
    },
    /// `(e)` or `(e : t)`
    Paren {
        inner: Box<Expr>,
        typed: Option<TypeExpr>,
        span: Span,
    },
    /// `[e, f]`
    Array {
        elements: Vec<Expr>,
        span: Span,
    },
    /// `{x = e, y = f}`
    RecordOf {
        fields: Vec<Binding>,
        span: Span,
    },
    /// `{| tag |}` or `{| tag = e |}`
    Tagged {
        tag: Name,
        content: Option<Box<Expr>>,
        span: Span,
    },
    Block {
        items: Vec<Item>,
        span: Span,
    },
    /// `First` or `Choose`
    Choice {
        bias: Bias,
        alternatives: Alternatives,
        span: Span,
    },
    Case {
        subject: Box<Expr>,
        alts: Vec<Alt>,
        span: Span,
    },
}

/// How often `Many` repeats.
#[cycle(expr)]
#[derive(Drop)]
pub enum Bound {
    Free,
    /// An atom: exactly so often.
    Exactly(Box<Expr>),
    /// `(e ..)`
    AtLeast {
        low: Box<Expr>,
        span: Span,
    },
    /// `(.. e)`
    AtMost {
        high: Box<Expr>,
        span: Span,
    },
    /// `(e .. f)`
    Between {
        low: Box<Expr>,
        high: Box<Expr>,
        span: Span,
    },
}

/// The alternatives of `First` or `Choose`: each has a tag, or none has.
#[cycle(expr)]
#[derive(Drop)]
pub enum Alternatives {
    WithTags(Vec<Binding>),
    Untagged(Vec<Expr>),
}

/// `x = e`: a field of a record, or an alternative with its tag.
#[cycle(expr)]
#[derive(Drop)]
pub struct Binding {
    pub name: Name,
    pub value: Expr,
    pub span: Span,
}

/// A part of a block.
#[cycle(expr)]
#[derive(Drop)]
pub enum Item {
    /// `$$ = e`
    Result { value: Expr, span: Span },
    /// `let x = e`
    Let { name: Name, value: Expr, span: Span },
    /// `x = e`
    Field { name: Name, value: Expr, span: Span },
    Plain(Expr),
}

/// `p -> e`
#[cycle(expr)]
#[derive(Drop)]
pub struct Alt {
    pub pattern: Pat,
    pub body: Expr,
    pub span: Span,
}

impl Expr {
    ghost use Rattle.std.specs.Prelude.{◌≡◌};
    ghost use Rattle.ddl_tree.specs.ExprTree.{expr_span};
    ghost use Rattle.ddl_tree.specs.View.{view};

    /// From its first byte to its last.
    #[tactic(auto, using(crate::proofs::Layers::layers))]
    pub fn span(&self) -> Span
        ensures { result ≡ expr_span (view self.now) }
    {
        match self {
            Expr::Infix { span, .. }
            | Expr::Pure { span, .. }
            | Expr::If { span, .. }
            | Expr::For { span, .. }
            | Expr::Map { span, .. }
            | Expr::Is { span, .. }
            | Expr::Prefix { span, .. }
            | Expr::Cast { span, .. }
            | Expr::CallGrammar { span, .. }
            | Expr::CallValue { span, .. }
            | Expr::Just { span, .. }
            | Expr::Many { span, .. }
            | Expr::Optional { span, .. }
            | Expr::Select { span, .. }
            | Expr::Char { span, .. }
            | Expr::Text { span, .. }
            | Expr::Set { span, .. }
            | Expr::Paren { span, .. }
            | Expr::Array { span, .. }
            | Expr::RecordOf { span, .. }
            | Expr::Tagged { span, .. }
            | Expr::Block { span, .. }
            | Expr::Choice { span, .. }
            | Expr::Case { span, .. }
            | Expr::True(span)
            | Expr::False(span)
            | Expr::Nothing(span) => *span,
            Expr::Num(number) => number.span,
            Expr::Upper(name) | Expr::Lower(name) | Expr::Class(name) => name.span,
        }
    }
}

impl Item {
    ghost use Rattle.std.specs.Prelude.{◌≡◌};
    ghost use Rattle.ddl_tree.specs.ExprTree.{item_span};
    ghost use Rattle.ddl_tree.specs.View.{item_view};

    /// From its first byte to its last.
    #[tactic(auto, using(crate::proofs::Layers::layers))]
    pub fn span(&self) -> Span
        ensures { result ≡ item_span (item_view self.now) }
    {
        match self {
            Item::Result { span, .. } | Item::Let { span, .. } | Item::Field { span, .. } => *span,
            Item::Plain(expr) => expr.span(),
        }
    }
}

impl Binding {
    ghost use Rattle.std.specs.Prelude.{◌≡◌};
    ghost use Rattle.ddl_tree.specs.View.{binding_view};

    /// From its first byte to its last.
    #[tactic(auto, using(crate::proofs::Layers::layers))]
    pub fn span(&self) -> Span
        ensures { result ≡ (binding_view self.now).span }
    {
        self.span
    }
}

impl Alt {
    ghost use Rattle.std.specs.Prelude.{◌≡◌};
    ghost use Rattle.ddl_tree.specs.View.{alt_view};

    /// From its first byte to its last.
    #[tactic(auto, using(crate::proofs::Layers::layers))]
    pub fn span(&self) -> Span
        ensures { result ≡ (alt_view self.now).span }
    {
        self.span
    }
}
