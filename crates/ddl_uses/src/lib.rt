//! The uses of names in types, classes and expressions, each with what binds it where it stands.
#![tactic(auto)]

mod binders;
mod blocks;
mod exprs;
mod lists;
mod module_names;
mod outer;
mod parts;
mod places;
mod scope;
mod seen;
mod walk;

pub use module_names::{ModuleNames, names_of};
pub use outer::Outer;
pub use parts::{take_class, take_type, take_typed};
pub use places::before;
pub use scope::Scope;
pub use seen::Seen;
pub use walk::Walk;
