//! Each use of a name with what binds it, and the kinds of what names stand for.
#![tactic(auto)]

mod decls;
mod kept_decls;
mod layouts;
mod params;
mod resolved;
mod resolving;
mod twice;

pub use ddl_kinds::{Bound, BuiltIn, NameError, Use, Want};
pub use ddl_tree::Kind;
pub use kept_decls::resolve;
pub use resolved::{DeclInfo, Resolved, Uses};
pub use resolving::bindings;
