//! What is done to the typed trees of a group once its types are known.
#![tactic(auto)]

mod cases;
mod error;
mod lists;
mod untaken;

pub use cases::check_cases;
pub use error::{CaseError, Gap};
