/// What ends a run at once, in every alternative.
#[derive(Clone, Copy, PartialEq, Eq)]
pub enum Fault {
    /// The true result leaves the range of `int` or `sint n`.
    Overflow,
    /// A division or remainder by zero.
    DivZero,
    /// A shift by the width or more; `int` has the width 128.
    Shift,
    /// A parse whose printed value nests too deep.
    DeepResult,
}
