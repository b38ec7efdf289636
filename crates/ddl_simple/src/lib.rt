//! Which modules the program runs so far, and the typed tree of each.
#![tactic(auto)]

mod blocks;
mod counting;
mod form;
mod grammars;
mod modules;
mod scope;
mod stop;
mod types;

pub use modules::specified;
