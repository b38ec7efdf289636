ghost use Rattle.std.specs.Prelude.{◌≡◌};
ghost use Rattle.ddl_lex.specs.Names.{word_among, word_of};

use ddl_token::Word;

/// Every word.
const WORDS: [Word; 28] = [
    Word::Def,
    Word::Import,
    Word::Bitdata,
    Word::Where,
    Word::Block,
    Word::Let,
    Word::Case,
    Word::Of,
    Word::If,
    Word::Then,
    Word::Else,
    Word::For,
    Word::Map,
    Word::In,
    Word::Is,
    Word::As,
    Word::AsCut,
    Word::AsFit,
    Word::True,
    Word::False,
    Word::Just,
    Word::Nothing,
    Word::First,
    Word::Choose,
    Word::Many,
    Word::ManyAll,
    Word::Optional,
    Word::OptionalAll,
];

/// The first of these words that has this spelling.
fn first_of(words: &[Word], name: &[u8]) -> Option<Word>
    ensures { result ≡ word_among words.now name.now }
{
    for word in words {
        if word.spelling() == name {
            return Some(*word);
        }
    }
    None
}

/// The word that has this spelling.
pub(crate) fn word_spelled(name: &[u8]) -> Option<Word>
    ensures { result ≡ word_of name.now }
{
    first_of(&WORDS, name)
}
