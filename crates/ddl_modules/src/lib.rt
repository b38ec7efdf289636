//! The loading of a module with all that it imports.
#![tactic(auto)]

mod cycles;
mod error;
mod levels;
mod loader;
mod names;
mod queue;
mod reading;
mod rows;

pub use error::LoadError;
pub use loader::load;
pub use names::module_name;
