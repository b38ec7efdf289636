/// A range of bytes in the text of a module: `from` is the first byte, `to` the one after the last.
#[derive(Clone, Copy, Debug, PartialEq, Eq)]
pub struct Span {
    /// The module's place in the list of loaded modules.
    pub module: u32,
    pub from: u32,
    pub to: u32,
}
