ghost use Rattle.std.specs.Prelude.{◌≡◌, ◌≤◌, length, IfSome};
ghost use Rattle.ddl_token.specs.Spelling.{mark_spelling};
ghost use Rattle.ddl_lex.specs.Marks.{mark_among, mark_of};

use ddl_token::Mark;

/// Every mark: a longer one stands before a shorter one.
const MARKS: [Mark; 43] = [
    Mark::BitAnd,
    Mark::BitOr,
    Mark::BitXor,
    Mark::OrElse,
    Mark::OrOr,
    Mark::DollarDollar,
    Mark::DollarBracket,
    Mark::DotDot,
    Mark::Arrow,
    Mark::EqualEqual,
    Mark::NotEqual,
    Mark::LessEqual,
    Mark::ShiftLeft,
    Mark::LessHash,
    Mark::ShiftRight,
    Mark::GreaterEqual,
    Mark::AndAnd,
    Mark::OpenUnion,
    Mark::CloseUnion,
    Mark::Bar,
    Mark::Caret,
    Mark::Dot,
    Mark::Equals,
    Mark::Bang,
    Mark::Less,
    Mark::Hash,
    Mark::Greater,
    Mark::Plus,
    Mark::Minus,
    Mark::Star,
    Mark::Slash,
    Mark::Percent,
    Mark::Tilde,
    Mark::OpenParen,
    Mark::CloseParen,
    Mark::OpenBracket,
    Mark::CloseBracket,
    Mark::OpenBrace,
    Mark::CloseBrace,
    Mark::Comma,
    Mark::Semicolon,
    Mark::Colon,
    Mark::Underscore,
];

/// The first of these marks with which the text begins.
fn first_of(marks: &[Mark], text: &[u8]) -> Option<Mark>
    ensures value { result ≡ mark_among marks.now text.now }
    ensures within { IfSome result (λ mark. length (mark_spelling mark) ≤ length text.now) }
{
    for mark in marks {
        if text.starts_with(mark.spelling()) {
            return Some(*mark);
        }
    }
    None
}

/// The longest mark at the front.
pub(crate) fn mark_at(text: &[u8]) -> Option<Mark>
    ensures value { result ≡ mark_of text.now }
    ensures within { IfSome result (λ mark. length (mark_spelling mark) ≤ length text.now) }
{
    first_of(&MARKS, text)
}
