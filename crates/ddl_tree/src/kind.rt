/// What a name stands for.
#[derive(Clone, Copy, PartialEq, Eq)]
pub enum Kind {
    /// A parser: the name begins with a capital letter.
    Grammar,
    /// A value or a function: the name begins with a small letter or `_`.
    Value,
    /// A set of bytes: the name begins with `$`.
    Class,
    /// A type with a layout in bits, declared by `bitdata`.
    Bits,
}
