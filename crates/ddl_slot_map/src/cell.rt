use crate::node::Node;

/// What is known of a slot.
#[derive(Clone, Copy)]
pub enum State {
    /// So many references to it.
    Live(u128),
    /// It has gone, and its words are not yet followed. It names the slot that went before it and still waits too.
    Gone(Option<usize>),
}

/// A slot and its node.
#[derive(Drop)]
pub struct Cell {
    pub state: State,
    pub node: Node,
}
