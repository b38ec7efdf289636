ghost use Rattle.std.specs.Prelude.{◌≡◌};
ghost use Rattle.ddl_token.specs.Spelling.{word_spelling};

/// A word that is reserved: it is never the name of a declaration or a variable.
#[derive(Clone, Copy, PartialEq, Eq)]
pub enum Word {
    /// `def`
    Def,
    /// `import`
    Import,
    /// `bitdata`
    Bitdata,
    /// `where`
    Where,
    /// `block`
    Block,
    /// `let`
    Let,
    /// `case`
    Case,
    /// `of`
    Of,
    /// `if`
    If,
    /// `then`
    Then,
    /// `else`
    Else,
    /// `for`
    For,
    /// `map`
    Map,
    /// `in`
    In,
    /// `is`
    Is,
    /// `as`
    As,
    /// `as!`
    AsCut,
    /// `as?`
    AsFit,
    /// `true`
    True,
    /// `false`
    False,
    /// `just`
    Just,
    /// `nothing`
    Nothing,
    /// `First`
    First,
    /// `Choose`
    Choose,
    /// `Many`
    Many,
    /// `Many?`
    ManyAll,
    /// `Optional`
    Optional,
    /// `Optional?`
    OptionalAll,
}

impl Word {
    /// The bytes of the word in a text, without a copy.
    pub fn spelling(self) -> &'static [u8]
        ensures { result.now ≡ word_spelling self }
    {
        match self {
            Word::Def => b"def",
            Word::Import => b"import",
            Word::Bitdata => b"bitdata",
            Word::Where => b"where",
            Word::Block => b"block",
            Word::Let => b"let",
            Word::Case => b"case",
            Word::Of => b"of",
            Word::If => b"if",
            Word::Then => b"then",
            Word::Else => b"else",
            Word::For => b"for",
            Word::Map => b"map",
            Word::In => b"in",
            Word::Is => b"is",
            Word::As => b"as",
            Word::AsCut => b"as!",
            Word::AsFit => b"as?",
            Word::True => b"true",
            Word::False => b"false",
            Word::Just => b"just",
            Word::Nothing => b"nothing",
            Word::First => b"First",
            Word::Choose => b"Choose",
            Word::Many => b"Many",
            Word::ManyAll => b"Many?",
            Word::Optional => b"Optional",
            Word::OptionalAll => b"Optional?",
        }
    }
}
