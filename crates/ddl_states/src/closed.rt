use crate::frame::{Found, FoundClass, FoundType, Frame};

/// What a form makes of a type at its hole, or the form and the type again.
#[derive(Drop)]
pub enum ClosedType {
    Type(FoundType),
    Expr(Found),
    Open(Frame, FoundType),
}

/// What a form makes of a factor of a class at its hole, or the form and the class again.
#[derive(Drop)]
pub enum ClosedClass {
    Other(FoundClass),
    Union(FoundClass),
    Open(Frame, FoundClass),
}

/// What a form makes of an expression at its hole that is its last part, or the form and the
/// expression again.
#[derive(Drop)]
pub enum Closed {
    Whole(Found),
    Open(Frame, Found),
}
