//! Words, nodes, and the map from slots to counted nodes: its definition.
#![tactic(auto)]

mod laws;
mod node;
mod word;

pub use laws::{map_law, number_law, release_law};
pub use node::{Node, NodeKind, Words};
pub use word::{Origin, SlotId, Stream, Word};
