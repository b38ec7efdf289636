use crate::operation::Operation;
use ddl_base::Span;
use ddl_ops::Pattern;
use ddl_types::Ty;

/// The forms. Variables are counted from the innermost, 0 first. A value form is a form that gives exactly one parse, where
/// it stands.
#[cycle(core)]
#[derive(Drop)]
pub enum Form {
    /// The value of a variable.
    Give(u32),
    Perform {
        operation: Operation,
        arguments: Vec<u32>,
        span: Span,
    },
    /// No parse and no failure.
    Stop,
    /// On each parse of `first` then `next`, with its value, of this type, as variable 0.
    Bind {
        of: Ty,
        first: Box<Form>,
        next: Box<Form>,
    },
    Both {
        left: Box<Form>,
        right: Box<Form>,
    },
    /// A biased choice: on each parse of `left` then `next`, with its value, of this type, as variable 0; `right` where
    /// `left` has neither a parse nor another ending than the end.
    Attempt {
        of: Ty,
        left: Box<Form>,
        next: Box<Form>,
        right: Box<Form>,
    },
    /// The function of this number at these variables.
    Call {
        function: u32,
        arguments: Vec<u32>,
    },
    /// The first alternative whose pattern the variable has; else the other form.
    Case {
        subject: u32,
        alternatives: Vec<Alternative>,
        other: Box<Form>,
    },
    /// Turns that begin with these variables, which stand before all others, the first as variable 0.
    Loop {
        types: Vec<Ty>,
        start: Vec<u32>,
        body: Box<Form>,
    },
    /// The next turn of the loop whose body this form ends.
    Again(Vec<u32>),
    /// A form of the declaration of this number.
    Inside {
        declaration: u32,
        body: Box<Form>,
    },
}

/// An alternative, with the content of the value, of this type, as variable 0.
#[cycle(core)]
#[derive(Drop)]
pub struct Alternative {
    pub pattern: Pattern,
    pub of: Ty,
    pub body: Form,
}
