//! The typing rules of single forms: what each asks of types, and what it gives.
#![tactic(auto, unfolding(crate::specs::Views::asks_of, crate::specs::Views::state_of, crate::specs::Views::env_of))]

mod ask;
mod asking;
mod builtin_forms;
mod builtin_types;
mod classes;
mod counting;
mod elaboration;
mod guards;
mod known;
mod laws;
mod local;
mod noting;
mod operators;
mod patterns;
mod refusing;
mod renaming;
mod scope;
mod target;
mod turns;
pub mod types;
mod writing;

pub use ask::Ask;
pub use builtin_forms::builtin_form;
pub use elaboration::Elaboration;
pub use known::Known;
pub use laws::guard_law;
pub use local::Local;
pub use operators::{Typing, typing_of};
pub use refusing::{TypeRefusal, type_refusal};
pub use target::{Meant, Target};
