ghost use Rattle.std.specs.Prelude.{◌≡◌, ◌<◌, ◌≤◌, length, true, ◌∷◌};
ghost use Rattle.ddl_lex.specs.Letters as letters;
ghost use Rattle.ddl_lex.specs.Literals as literals;

use crate::letters::is_control;

/// What stands next inside a literal.
#[derive(Clone, Copy, PartialEq, Eq)]
pub enum Element {
    /// A byte or an escape: the byte that it means, and how many bytes it takes.
    Means(u8, usize),
    /// The closing quote.
    Closes,
    /// The end of the line or of the text.
    Ends,
    /// A control byte.
    Control,
    /// A backslash that begins no escape.
    NoEscape,
}

/// What a digit counts, of a hexadecimal number too.
pub(crate) fn digit_value(digit: u8) -> u8
    ensures value { result ≡ letters.digit_value digit }
    ensures small { letters.is_hexadecimal digit ≡ true → result < 16 }
{
    match digit {
        b'a'.. => digit - b'a' + 10,
        b'A'.. => digit - b'A' + 10,
        _ => digit.saturating_sub(b'0'),
    }
}

/// What stands at `\x`, before whose digits the text is cut.
fn hexadecimal_escape(digits: &[u8]) -> Element
    ensures value { result ≡ literals.hexadecimal_escape digits.now }
    ensures takes { literals.Takes result (92 ∷ 120 ∷ digits.now) }
{
    match digits {
        [high, low, ..] if high.is_ascii_hexdigit() && low.is_ascii_hexdigit() => {
            Element::Means(16 * digit_value(*high) + digit_value(*low), 4)
        }
        _ => Element::NoEscape,
    }
}

/// What stands at a backslash, behind which the text is cut.
fn escape(behind: &[u8]) -> Element
    ensures value { result ≡ literals.escape behind.now }
    ensures takes { literals.Takes result (92 ∷ behind.now) }
{
    match behind {
        [b'n', ..] => Element::Means(b'\n', 2),
        [b't', ..] => Element::Means(b'\t', 2),
        [b'r', ..] => Element::Means(b'\r', 2),
        [quoted @ (b'\\' | b'"' | b'\''), ..] => Element::Means(*quoted, 2),
        [b'x', digits @ ..] => hexadecimal_escape(digits),
        _ => Element::NoEscape,
    }
}

/// What stands next inside a literal that this quote ends.
pub(crate) fn element_at(quote: u8, inside: &[u8]) -> Element
    ensures value { result ≡ literals.element quote inside.now }
    ensures takes { literals.Takes result inside.now }
{
    match inside {
        [] => Element::Ends,
        [byte, ..] if *byte == quote => Element::Closes,
        [b'\n', ..] => Element::Ends,
        [b'\\', behind @ ..] => escape(behind),
        [byte, ..] if is_control(*byte) => Element::Control,
        [byte, ..] => Element::Means(*byte, 1),
    }
}
