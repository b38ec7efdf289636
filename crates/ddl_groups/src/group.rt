//! Groups of declarations, by their numbers.

/// The numbers of declarations that reach each other by their uses, in text order.
pub type Group = Vec<u32>;

/// Groups in the order of need and, where that leaves a choice, of text.
#[derive(Drop)]
pub struct Groups {
    pub lists: Vec<Group>,
}
