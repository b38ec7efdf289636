ghost use Rattle.std.specs.Prelude.{◌≡◌, ◌<◌, ◌≤◌, length, IfOk, IfSome, ◌+◌, true, take, suc, drop};
ghost use Rattle.ddl_lex.specs.Letters.{run, is_name as is_name_byte};
ghost use Rattle.ddl_lex.specs.Names as names;

use crate::letters::{is_name, name_len};
use crate::words::word_spelled;
use ddl_base::{Bytes, NoMemory};
use ddl_token::{Tok, Word};
use std::alloc::Global;

/// Whether a name begins.
pub(crate) fn begins_name(text: &[u8]) -> bool
    ensures { result ≡ names.begins_name text.now }
{
    match text {
        [b'A'..=b'Z' | b'a'..=b'z', ..] => true,
        [b'_', next, ..] => is_name(*next),
        _ => false,
    }
}

/// Whether the name of a class begins.
pub(crate) fn begins_class(text: &[u8]) -> bool
    ensures { result ≡ names.begins_class text.now }
{
    matches!(text, [b'$', b'a'..=b'z', ..])
}

/// The word or the name that has this spelling.
fn word_or_name(alloc: Global, name: &[u8]) -> Result<Tok, NoMemory>
    requires { 0 < length name.now }
    ensures { IfOk result (λ tok. tok ≡ names.word_or_name (names.word_of name.now) name.now) }
{
    if let Some(word) = word_spelled(name) {
        return Ok(Tok::Word(word));
    }
    let bytes = Bytes::of(alloc, name)?;
    if name[0].is_ascii_uppercase() {
        Ok(Tok::Upper(bytes))
    } else {
        Ok(Tok::Lower(bytes))
    }
}

/// The word of `n` bytes at the front and the sign behind them, as in `as!` and `Many?`.
fn signed_word(text: &[u8], n: usize) -> Option<Word>
    requires { n ≤ length text.now }
    ensures value { result ≡ names.signed_word n text.now }
    ensures within { IfSome result (λ _. n < length text.now) }
{
    if n < text.len() {
        word_spelled(&text[..n + 1])
    } else {
        None
    }
}

/// The word or the name at the front, and how many bytes it has.
pub(crate) fn name_at(alloc: Global, text: &[u8]) -> Result<(Option<Tok>, usize), NoMemory>
    requires { names.begins_name text.now ≡ true }
    ensures value { IfOk result (λ found. found ≡ names.named (run is_name_byte text.now) text.now) }
    ensures within { IfOk result (λ found. found.1 ≤ length text.now) }
    ensures some { IfOk result (λ found. 0 < found.1) }
{
    let n = name_len(text);
    match signed_word(text, n) {
        Some(word) => Ok((Some(Tok::Word(word)), n + 1)),
        None => {
            let (name, _) = text.split_at(n);
            let tok = word_or_name(alloc, name)?;
            Ok((Some(tok), n))
        }
    }
}

/// The class at the front, and how many bytes it has.
pub(crate) fn class_at(alloc: Global, text: &[u8]) -> Result<(Option<Tok>, usize), NoMemory>
    requires { 0 < length text.now }
    ensures value { IfOk result (λ found. found ≡ names.class (suc (run is_name_byte (drop 1 text.now))) text.now) }
    ensures within { IfOk result (λ found. found.1 ≤ length text.now) }
    ensures some { IfOk result (λ found. 0 < found.1) }
{
    let n = 1 + name_len(&text[1..]);
    let name = Bytes::of(alloc, &text[..n])?;
    Ok((Some(Tok::Class(name)), n))
}
