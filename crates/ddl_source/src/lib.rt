//! The tree of a module's text, or what is wrong with the text.
#![tactic(auto)]

mod error;
mod law;
mod source;

pub use error::SourceError;
pub use law::shown_modules_are_read_back;
pub use source::tree_of;
