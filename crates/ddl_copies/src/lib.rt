//! The law of specialisation: the copies that an entry needs mean what the entry means.
#![tactic(auto)]

mod laws;

pub use laws::{copied_is_mono, specialised_keeps};
