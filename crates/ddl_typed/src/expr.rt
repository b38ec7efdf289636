use crate::class::TClass;
use crate::parts::{Binder, Choice, Name, Site};
use ddl_base::{Bytes, Span};
use ddl_ops::{Builtin, Cast, Infix, Pattern, Prefix, Primitive};
use ddl_types::Ty;

/// A declaration: its name's place, and the form that it stands for.
#[derive(Drop)]
pub struct TDecl {
    pub name: Bytes,
    /// Where the name stands.
    pub span: Span,
    pub body: TExpr,
}

/// A form of a specification, with its type and the place of its text.
#[cycle(typed)]
#[derive(Drop)]
pub struct TExpr {
    pub form: TForm,
    pub of: Ty,
    pub span: Span,
}

/// The forms. Local names are numbers: a binding says which number it gives, and the innermost binding holds. Grammar,
/// class and type parameters have numbers of their own. A number and a cast are of the type of the form.
#[cycle(typed)]
#[derive(Drop)]
pub enum TForm {
    /// The value of a text: its bytes as an array. Where a grammar is wanted, the match of these bytes.
    Text(Bytes),
    /// The value of a local name.
    Local(u32),
    /// A number or a character.
    Number(u128),
    Truth(bool),
    Nothing,
    Just(Box<TExpr>),
    /// `[a, b]`.
    List(Vec<TExpr>),
    /// `{ x = a }`; without fields the unit value.
    Record(Vec<TField>),
    /// `{| x = a |}`; without content it is the unit value.
    Union {
        tag: Bytes,
        content: TContent,
    },
    /// `e.x`.
    Select {
        of: Box<TExpr>,
        field: Bytes,
    },
    Infix {
        operator: Infix,
        left: Box<TExpr>,
        right: Box<TExpr>,
    },
    Prefix {
        operator: Prefix,
        operand: Box<TExpr>,
    },
    /// `e as t` and `e as! t`.
    Cast {
        cast: Cast,
        value: Box<TExpr>,
    },
    /// A built-in value with its arguments.
    Builtin {
        builtin: Builtin,
        arguments: Vec<TExpr>,
    },
    /// The value of a declaration.
    ValueCall {
        declaration: u32,
        arguments: Vec<TArgument>,
    },
    /// `(e)` and `(e : t)`, which give no tick.
    Paren(Box<TExpr>),
    If {
        condition: Box<TExpr>,
        then: Box<TExpr>,
        other: Box<TExpr>,
    },
    Case {
        subject: Box<TExpr>,
        cases: Vec<TCase>,
    },
    /// `for (s = a; x in e) b`, where s has the number `result`.
    For {
        result: u32,
        start: Box<TExpr>,
        names: Binder,
        over: Box<TExpr>,
        body: Box<TExpr>,
    },
    /// `map (x in e) b`.
    Map {
        names: Binder,
        over: Box<TExpr>,
        body: Box<TExpr>,
    },
    /// `^ e`: the value of `e`, which reads nothing; also where a value stands for a grammar.
    Pure(Box<TExpr>),
    /// The next byte.
    UInt8,
    /// The bytes of a value, as they are.
    Match(Box<TExpr>),
    /// The end of the stream.
    End,
    /// The next byte, where it is in the class.
    Class(TClass),
    /// `Fail` with the text of this number.
    Fail(u32),
    /// A built-in grammar with its value arguments.
    Primitive {
        primitive: Primitive,
        arguments: Vec<TExpr>,
    },
    /// `e is p`.
    Is {
        value: Box<TExpr>,
        pattern: Pattern,
    },
    /// `e as? t`.
    Fits(Box<TExpr>),
    /// The items in order.
    Block(Vec<TItem>),
    /// The first alternative that has a parse, with all its parses; also `p <| q`.
    First(Vec<TAlternative>),
    /// All alternatives; also `p | q`.
    Choose(Vec<TAlternative>),
    Many {
        choice: Choice,
        bounds: TBounds,
        body: Box<TExpr>,
    },
    Optional {
        choice: Choice,
        body: Box<TExpr>,
    },
    /// A grammar that is declared.
    Call {
        declaration: u32,
        arguments: Vec<TArgument>,
    },
    /// A grammar parameter.
    Parameter(u32),
}

/// A field of a record form.
#[cycle(typed)]
#[derive(Drop)]
pub struct TField {
    pub label: Bytes,
    pub value: TExpr,
}

/// The content of a union form.
#[cycle(typed)]
#[derive(Drop)]
pub enum TContent {
    Absent,
    Given(Box<TExpr>),
}

/// An alternative of a `case`.
#[cycle(typed)]
#[derive(Drop)]
pub struct TCase {
    pub pattern: Pattern,
    pub body: TExpr,
}

/// An alternative of a choice, with its tag where it has one.
#[cycle(typed)]
#[derive(Drop)]
pub struct TAlternative {
    pub tag: Option<Bytes>,
    pub body: TExpr,
}

/// The bounds of a repetition.
#[cycle(typed)]
#[derive(Drop)]
pub enum TBounds {
    Unbounded,
    /// So many turns, neither more nor fewer.
    Exactly(Box<TExpr>),
    AtLeast(Box<TExpr>),
    AtMost(Box<TExpr>),
    Between { low: Box<TExpr>, high: Box<TExpr> },
}

/// An argument, with the number of its parameter in the declaration that is called.
#[cycle(typed)]
#[derive(Drop)]
pub enum TArgument {
    Value {
        parameter: u32,
        value: TExpr,
    },
    /// A grammar, which is run where its parameter is used.
    Grammar {
        parameter: u32,
        site: Site,
        grammar: TExpr,
    },
    ClassOf {
        parameter: u32,
        class: TClass,
    },
    /// A type for a variable of the declaration's scheme.
    TypeOf {
        parameter: u32,
        of: Ty,
    },
    /// A captured value that a copy hands on: its name in the copy that is called, and its name here.
    ByHand {
        there: Name,
        here: Name,
    },
}

/// An item of a block.
#[cycle(typed)]
#[derive(Drop)]
pub enum TItem {
    Plain(TExpr),
    /// `let x = e`, where x has this number.
    Let {
        name: u32,
        body: TExpr,
    },
    /// `x = e`, where x has this number in what follows.
    Field {
        label: Bytes,
        name: u32,
        body: TExpr,
    },
    /// `$$ = e`.
    Result(TExpr),
}
