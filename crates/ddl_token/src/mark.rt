ghost use Rattle.std.specs.Prelude.{◌≡◌};
ghost use Rattle.ddl_token.specs.Spelling.{mark_spelling};

/// A mark: a token of one to three signs.
#[derive(Clone, Copy, PartialEq, Eq)]
pub enum Mark {
    /// `<|`
    OrElse,
    /// `|`
    Bar,
    /// `||`
    OrOr,
    /// `$$`
    DollarDollar,
    /// `$[`
    DollarBracket,
    /// `^`
    Caret,
    /// `..`
    DotDot,
    /// `.`
    Dot,
    /// `.&.`
    BitAnd,
    /// `.|.`
    BitOr,
    /// `.^.`
    BitXor,
    /// `->`
    Arrow,
    /// `=`
    Equals,
    /// `==`
    EqualEqual,
    /// `!=`
    NotEqual,
    /// `!`
    Bang,
    /// `<`
    Less,
    /// `<=`
    LessEqual,
    /// `<<`
    ShiftLeft,
    /// `<#`
    LessHash,
    /// `#`
    Hash,
    /// `>`
    Greater,
    /// `>>`
    ShiftRight,
    /// `>=`
    GreaterEqual,
    /// `+`
    Plus,
    /// `-`
    Minus,
    /// `*`
    Star,
    /// `/`
    Slash,
    /// `%`
    Percent,
    /// `~`
    Tilde,
    /// `&&`
    AndAnd,
    /// `(`
    OpenParen,
    /// `)`
    CloseParen,
    /// `[`
    OpenBracket,
    /// `]`
    CloseBracket,
    /// `{`
    OpenBrace,
    /// `}`
    CloseBrace,
    /// `{|`
    OpenUnion,
    /// `|}`
    CloseUnion,
    /// `,`
    Comma,
    /// `;`
    Semicolon,
    /// `:`
    Colon,
    /// `_`
    Underscore,
}

impl Mark {
    /// The bytes of the mark in a text, without a copy.
    pub fn spelling(self) -> &'static [u8]
        ensures { result.now ≡ mark_spelling self }
    {
        match self {
            Mark::OrElse => b"<|",
            Mark::Bar => b"|",
            Mark::OrOr => b"||",
            Mark::DollarDollar => b"$$",
            Mark::DollarBracket => b"$[",
            Mark::Caret => b"^",
            Mark::DotDot => b"..",
            Mark::Dot => b".",
            Mark::BitAnd => b".&.",
            Mark::BitOr => b".|.",
            Mark::BitXor => b".^.",
            Mark::Arrow => b"->",
            Mark::Equals => b"=",
            Mark::EqualEqual => b"==",
            Mark::NotEqual => b"!=",
            Mark::Bang => b"!",
            Mark::Less => b"<",
            Mark::LessEqual => b"<=",
            Mark::ShiftLeft => b"<<",
            Mark::LessHash => b"<#",
            Mark::Hash => b"#",
            Mark::Greater => b">",
            Mark::ShiftRight => b">>",
            Mark::GreaterEqual => b">=",
            Mark::Plus => b"+",
            Mark::Minus => b"-",
            Mark::Star => b"*",
            Mark::Slash => b"/",
            Mark::Percent => b"%",
            Mark::Tilde => b"~",
            Mark::AndAnd => b"&&",
            Mark::OpenParen => b"(",
            Mark::CloseParen => b")",
            Mark::OpenBracket => b"[",
            Mark::CloseBracket => b"]",
            Mark::OpenBrace => b"{",
            Mark::CloseBrace => b"}",
            Mark::OpenUnion => b"{|",
            Mark::CloseUnion => b"|}",
            Mark::Comma => b",",
            Mark::Semicolon => b";",
            Mark::Colon => b":",
            Mark::Underscore => b"_",
        }
    }
}
