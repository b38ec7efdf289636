//! Slots: counted nodes under numbers, over `slab`. Contracts see the finite map of `ddl_slots`.
#![tactic(auto)]

mod cell;
mod node;
mod release;
mod sharing;
mod slots;

pub use node::Node;
pub use slots::{NoRoom, Slots};
