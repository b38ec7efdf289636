//! Well typed specifications: which values have which type, which specialised specifications are typed, and what then never happens.
#![tactic(auto)]

mod laws;

pub use laws::{kept_sound, never_stuck, typed_answer, typed_core_never_stuck};
