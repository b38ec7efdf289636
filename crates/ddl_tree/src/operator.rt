/// An operator between two expressions, in order of their nonterminals.
#[derive(Clone, Copy, PartialEq, Eq)]
pub enum InfixOp {
    /// `|`: both alternatives, in order. It groups to the right.
    Either,
    /// `<|`: the second only where the first fails. It groups to the right.
    OrElse,
    /// `||`
    Or,
    /// `&&`
    And,
    /// `==`; comparisons don't group.
    Equal,
    /// `!=`
    NotEqual,
    /// `<`
    Less,
    /// `<=`
    LessEqual,
    /// `>`
    Greater,
    /// `>=`
    GreaterEqual,
    /// `.|.`
    BitOr,
    /// `.^.`
    BitXor,
    /// `.&.`
    BitAnd,
    /// `<<`
    ShiftLeft,
    /// `>>`
    ShiftRight,
    /// `#`: the bits of the right side after those of the left.
    Append,
    /// `<#`: the same, in the width of the left side.
    AppendWithin,
    /// `+`
    Add,
    /// `-`
    Subtract,
    /// `*`
    Multiply,
    /// `/`
    Divide,
    /// `%`
    Remainder,
}

/// An operator before an expression.
#[derive(Clone, Copy, PartialEq, Eq)]
pub enum PrefixOp {
    /// `-`
    Negate,
    /// `!`
    Not,
    /// `~`
    Complement,
}

/// How a value goes to another type.
#[derive(Clone, Copy, PartialEq, Eq)]
pub enum CastOp {
    /// `as`: no value is lost.
    Lossless,
    /// `as!`: high bits may be cut off.
    Cut,
    /// `as?`: fails where the value does not fit.
    Fit,
}

/// Whether a choice is committed to the first alternative that succeeds.
#[derive(Clone, Copy, PartialEq, Eq)]
pub enum Bias {
    /// `First`, `Many`, `Optional`: it is.
    Biased,
    /// `Choose`, `Many?`, `Optional?`: each alternative is tried.
    Unbiased,
}
