/// Why a grammar gave no parse. The words are those of the failure line.
#[derive(Clone, Copy, PartialEq, Eq)]
pub enum Why {
    /// `UInt8` at the end of the stream.
    Byte,
    /// `Match` or a text, at the first byte that is absent or another.
    Match,
    /// A class, where the byte is absent or not in it.
    Class,
    /// `END` before the end.
    End,
    /// `Take` of more bytes than there are.
    Take,
    /// `Drop` of more bytes than there are.
    Drop,
    /// `Index` at or past the length.
    Index,
    /// `Lookup` of a key that is not in the map.
    Lookup,
    /// `Insert` of a key that is in the map.
    Insert,
    /// `Fail` with the text of this number.
    Said(u32),
    /// `is` on a value of another form.
    Guard,
    /// `as?` of a value that does not fit.
    Fits,
    /// `case` on a value that no alternative has.
    Case,
}
