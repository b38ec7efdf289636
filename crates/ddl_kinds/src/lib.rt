//! Kinds of names and of forms, what a place wants of them, the built-in names, and what is found where a name is used.
#![tactic(auto)]

mod bound;
mod builtin;
mod declaration;
mod error;
mod forms;
mod meaning;
mod uses;
mod want;

pub use bound::{Bound, Use};
pub use builtin::BuiltIn;
pub use ddl_tree::Kind;
pub use declaration::{kind_of, name_of, params_of};
pub use error::NameError;
pub use forms::{
    arguments_of, first_want, form_of_cast, form_of_infix, form_of_parens, free_want, settled,
    settled_by, sides,
};
pub use meaning::{Arguments, Meaning};
pub use uses::{fits, name_use, type_use};
pub use want::{Form, Want};
