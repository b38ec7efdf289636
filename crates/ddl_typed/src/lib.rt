//! The typed tree of a specification, the definitions of its meaning, and an evaluator of its simple forms.
#![tactic(auto)]

mod answer;
mod built;
mod class;
mod entry;
mod evaluate;
mod expr;
mod laws;
mod layouts;
mod parts;
mod shared;
mod specification;
mod step;

pub use answer::{Answer, Close, Failure, Parse};
pub use class::TClass;
pub use entry::denote;
pub use expr::{
    TAlternative, TArgument, TBounds, TCase, TContent, TDecl, TExpr, TField, TForm, TItem,
};
pub use laws::{answer_law, depth_law};
pub use layouts::layout_law;
pub use parts::{Binder, Choice, Name, Site};
pub use specification::{BitsDecl, PlaceType, TBody, TDeclaration, TParam, TSpec, form_declared};
