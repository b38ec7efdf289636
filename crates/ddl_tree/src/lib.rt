//! The syntax tree of a module, each part with its span, and the grammar that it comes from.
#![tactic(auto)]

mod class;
mod decl;
mod expr;
mod kind;
mod module;
mod name;
mod operator;
mod pattern;
mod types;

pub use class::Cls;
pub use decl::{Bits, Con, Decl, Param, Part};
pub use expr::{Alt, Alternatives, Binding, Bound, Expr, Item};
pub use kind::Kind;
pub use module::{Import, Module, SourceUnit};
pub use name::{ByteLit, Name, Number};
pub use operator::{Bias, CastOp, InfixOp, PrefixOp};
pub use pattern::{Binder, Names, Pat, Shape};
pub use types::TypeExpr;
