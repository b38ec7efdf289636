//! What a search for groups keeps of declarations and of uses.

/// How far the search is with a declaration.
#[derive(Clone, Copy, Drop)]
pub(crate) enum Mark {
    Unseen,
    /// It stands on the path, at this place.
    Open(usize),
    Closed,
}

/// A use that is still to be followed: the place on the path of the declaration that has it, and what it leads to.
#[derive(Clone, Copy, Drop)]
pub(crate) struct Step {
    pub(crate) from: usize,
    pub(crate) to: u32,
}

/// The path of declarations that use one another, the places at which its groups begin, and the uses still to be followed.
#[derive(Drop)]
pub(crate) struct Search {
    pub(crate) path: Vec<u32>,
    pub(crate) heads: Vec<usize>,
    pub(crate) pending: Vec<Step>,
    pub(crate) marks: Vec<Mark>,
    pub(crate) labels: Vec<u32>,
    pub(crate) count: u32,
}
