//! What the parser keeps while it reads: the open forms, the hole, the parts that have been read.
#![tactic(auto)]

pub mod append;
mod closed;
mod focus;
mod frame;
pub mod level;
pub mod part;
mod refusal;
mod stack;

pub use closed::{Closed, ClosedClass, ClosedType};
pub use focus::{
    BitsFocus, CaseFocus, Cases, ClassFocus, FieldFocus, Focus, HeadFocus, ListFocus, Loop,
    LoopFocus, TypeFocus,
};
pub use frame::{
    ClassFrame, DeclFrame, Found, FoundClass, FoundType, Frame, Head, InnerFrame, LastFrame,
    Layout, ListFrame, PartStart, Parted, Repeat, Sort, Start, TypeFrame,
};
pub use refusal::Refusal;
pub use stack::Stack;
