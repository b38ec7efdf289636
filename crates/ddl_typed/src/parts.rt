//! The parts of forms that hold no forms.

/// Whether a later alternative counts beside an earlier one.
#[derive(Clone, Copy, PartialEq, Eq)]
pub enum Choice {
    Biased,
    Unbiased,
}

/// The names of a turn of `for` or `map`.
#[derive(Clone, Copy, PartialEq, Eq)]
pub struct Binder {
    /// Of the key or the position.
    pub key: Option<u32>,
    pub element: u32,
}

/// The name of a value in a copy: of the copy itself, or, under a grammar parameter, one that its argument captured.
#[derive(Drop)]
pub struct Name {
    /// The parameters that lead to it, the outermost first.
    pub under: Vec<u32>,
    pub own: u32,
}

/// Where a grammar argument stands.
#[derive(Drop)]
pub struct Site {
    /// The number of its place in the text.
    pub place: u32,
    /// The values that it captures.
    pub values: Vec<u32>,
    /// The grammar, class and type parameters that it uses.
    pub grammars: Vec<u32>,
    pub classes: Vec<u32>,
    pub types: Vec<u32>,
}
