use ddl_base::Span;
use ddl_tree::{
    Alt, Bias, Binding, Bound, CastOp, Cls, Con, Expr, InfixOp, Item, Module, Name, Names, Param,
    Part, Pat, PrefixOp, TypeExpr,
};

/// An expression, boxed as the form around it keeps it, and how many forms are nested in it,
/// itself counted.
#[derive(Drop)]
pub struct Found {
    pub expr: Box<Expr>,
    pub deep: u32,
}

/// A written type, and how many are nested in it.
#[derive(Drop)]
pub struct FoundType {
    pub of: TypeExpr,
    pub deep: u32,
}

/// A class, and how many are nested in it.
#[derive(Drop)]
pub struct FoundClass {
    pub class: Cls,
    pub deep: u32,
}

/// Whether a name is that of a grammar or of a value.
#[derive(Clone, Copy, PartialEq, Eq)]
pub enum Sort {
    Grammar,
    Value,
}

/// What is read of a declaration before its result's type or its body.
#[derive(Drop)]
pub struct Head {
    pub from: Span,
    pub sort: Sort,
    pub name: Name,
    pub params: Vec<Param>,
    pub deep: u32,
}

/// Where a layout stands.
#[derive(Drop)]
pub enum Layout {
    Decl {
        from: Span,
        name: Name,
    },
    /// In a constructor, after others.
    Con {
        from: Span,
        name: Name,
        cons: Vec<Con>,
        con: Name,
        deep: u32,
    },
}

/// A layout up to one of its parts.
#[derive(Drop)]
pub struct Parted {
    pub layout: Layout,
    pub from: Span,
    pub parts: Vec<Part>,
    pub deep: u32,
}

/// What begins a part of a block.
#[derive(Drop)]
pub enum Start {
    Plainly,
    Result(Span),
    Let(Span, Name),
    Field(Name),
}

/// What begins a part of a layout.
#[derive(Drop)]
pub enum PartStart {
    Named(Name),
    Unnamed(Span),
}

/// `Many`, `Optional`, `First` or `Choose`, and its place.
#[derive(Clone, Copy, PartialEq, Eq)]
pub struct Repeat {
    pub bias: Bias,
    pub from: Span,
}

/// A form with a hole, and its parts before the hole.
#[derive(Drop)]
pub enum Frame {
    Type(TypeFrame),
    Class(ClassFrame),
    Last(LastFrame),
    Inner(InnerFrame),
    List(ListFrame),
    Decl(DeclFrame),
}

/// The hole is a type, in a type or in an expression.
#[derive(Drop)]
pub enum TypeFrame {
    Maybe(Span),
    Bracket(Span),
    MapValue { from: Span, key: FoundType },
    Within(Span),
    Cast { op: CastOp, value: Found },
    Paren { from: Span, inner: Found },
}

/// The hole is a class, in a class or in an expression.
#[derive(Drop)]
pub enum ClassFrame {
    Union(FoundClass),
    Other(Span),
    Grouped(Span),
    Set(Span),
    /// `$[` as an expression.
    Atom(Span),
}

/// The hole is the last part of an expression.
#[derive(Drop)]
pub enum LastFrame {
    Infix {
        op: InfixOp,
        left: Found,
    },
    Pure(Span),
    Else {
        from: Span,
        condition: Found,
        then: Found,
    },
    For {
        from: Span,
        state: Name,
        start: Found,
        names: Names,
        list: Found,
    },
    Map {
        from: Span,
        names: Names,
        list: Found,
    },
    Prefix {
        op: PrefixOp,
        from: Span,
    },
    CallGrammar {
        name: Name,
        args: Vec<Expr>,
        deep: u32,
    },
    CallValue {
        name: Name,
        args: Vec<Expr>,
        deep: u32,
    },
    Just(Span),
    Many {
        repeat: Repeat,
        bound: Bound,
        deep: u32,
    },
    Optional(Repeat),
}

/// The hole is a part before a certain mark or word.
#[derive(Drop)]
pub enum InnerFrame {
    If(Span),
    Then {
        from: Span,
        condition: Found,
    },
    ForStart {
        from: Span,
        state: Name,
    },
    ForList {
        from: Span,
        state: Name,
        start: Found,
        names: Names,
    },
    MapList {
        from: Span,
        names: Names,
    },
    AtMost {
        repeat: Repeat,
        from: Span,
    },
    Between {
        repeat: Repeat,
        from: Span,
        low: Found,
    },
    Paren(Span),
    Tagged {
        from: Span,
        tag: Name,
    },
    Subject(Span),
}

/// The hole is an element of a list; `deep` is the depth of those before it.
#[derive(Drop)]
pub enum ListFrame {
    Array {
        from: Span,
        elements: Vec<Expr>,
        deep: u32,
    },
    Record {
        from: Span,
        fields: Vec<Binding>,
        deep: u32,
        name: Name,
    },
    Block {
        from: Span,
        items: Vec<Item>,
        deep: u32,
        start: Start,
    },
    Untagged {
        repeat: Repeat,
        alternatives: Vec<Expr>,
        deep: u32,
    },
    WithTags {
        repeat: Repeat,
        alternatives: Vec<Binding>,
        deep: u32,
        tag: Name,
    },
    Alt {
        from: Span,
        subject: Found,
        alts: Vec<Alt>,
        deep: u32,
        pattern: Pat,
    },
}

/// The module, and declarations in it.
#[derive(Drop)]
pub enum DeclFrame {
    Module {
        tree: Module,
        deep: u32,
    },
    Param {
        head: Head,
        from: Span,
        sort: Sort,
        name: Name,
    },
    Result(Head),
    Body {
        head: Head,
        result: Option<TypeExpr>,
        deep: u32,
    },
    ClassBody {
        from: Span,
        name: Name,
    },
    Part {
        parted: Parted,
        start: PartStart,
    },
}
