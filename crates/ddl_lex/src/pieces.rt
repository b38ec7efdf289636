ghost use Rattle.std.specs.Prelude.{◌≡◌, ◌<◌, ◌≤◌, ◌+◌, ◌^◌, length, drop, IfOk, IsTrue, true, Some, None, slice_get};
ghost use Rattle.ddl_lex.specs.Gives.{Gives};
ghost use Rattle.ddl_lex.specs.Letters.{begins_with};
ghost use Rattle.ddl_lex.specs.Comments.{comment};
ghost use Rattle.ddl_lex.specs.Literals.{literal, character};
ghost use Rattle.ddl_lex.specs.Marks.{mark_of};
ghost use Rattle.ddl_lex.specs.Pieces as pieces;

use crate::LexError;
use crate::comments::comment_len;
use crate::letters::{is_white, line_len};
use crate::literals::{character_at, text_at};
use crate::marks::mark_at;
use crate::names::{begins_class, begins_name, class_at, name_at};
use crate::numbers::number_at;
use ddl_token::Tok;
use std::alloc::Global;

/// Whether a comment to the end of the line begins.
fn begins_line_comment(text: &[u8]) -> bool
    ensures { result ≡ begins_with 45 45 text.now }
{
    matches!(text, [b'-', b'-', ..])
}

/// Whether a comment that nests begins.
fn begins_comment(text: &[u8]) -> bool
    ensures value { result ≡ begins_with 123 45 text.now }
    ensures long { IsTrue result → 2 ≤ length text.now }
{
    matches!(text, [b'{', b'-', ..])
}

/// The comment that `{-` at the front opens.
fn comment_at(text: &[u8], at: u32) -> Result<(Option<Tok>, usize), LexError>
    requires { 2 ≤ length text.now }
    ensures value { result ≡ pieces.opened at (comment 0 0 (drop 2 text.now)) }
    ensures within { IfOk result (λ found. found.1 ≤ length text.now) }
    ensures some { IfOk result (λ found. 0 < found.1) }
{
    let (_, inside) = text.split_at(2);
    match comment_len(inside) {
        Some(n) => Ok((None, n + 2)),
        None => Err(LexError::OpenText(at)),
    }
}

/// The text literal at the front.
fn text_token(alloc: Global, text: &[u8], at: u32) -> Result<(Option<Tok>, usize), LexError>
    requires some { 0 < length text.now }
    requires size { at + length text.now < 2 ^ 31 }
    ensures value { Gives (pieces.text_token (literal 34 at (at + 1) 0 (drop 1 text.now))) result }
    ensures within { IfOk result (λ found. found.1 ≤ length text.now) }
    ensures some { IfOk result (λ found. 0 < found.1) }
{
    let (_, inside) = text.split_at(1);
    let (bytes, n) = text_at(alloc, inside, at)?;
    Ok((Some(Tok::Text(bytes)), n + 1))
}

/// The character literal at the front.
fn character_token(text: &[u8], at: u32) -> Result<(Option<Tok>, usize), LexError>
    requires some { 0 < length text.now }
    requires size { at + length text.now < 2 ^ 31 }
    ensures value { result ≡ character at (drop 1 text.now) }
    ensures within { IfOk result (λ found. found.1 ≤ length text.now) }
    ensures some { IfOk result (λ found. 0 < found.1) }
{
    let (_, inside) = text.split_at(1);
    character_at(inside, at)
}

/// The mark at the front.
fn mark_token(text: &[u8], at: u32) -> Result<(Option<Tok>, usize), LexError>
    ensures value { result ≡ pieces.marked at (mark_of text.now) }
    ensures within { IfOk result (λ found. found.1 ≤ length text.now) }
    ensures some { IfOk result (λ found. 0 < found.1) }
{
    match mark_at(text) {
        Some(mark) => Ok((Some(Tok::Mark(mark)), mark.spelling().len())),
        None => Err(LexError::BadByte(at)),
    }
}

/// What stands at `at`, where the rest of the text begins with `first`: a token, or white space or a
/// comment, and how many bytes it has.
#[tactic(auto, unfolding(crate::specs::Pieces::piece))]
fn piece_at(
    alloc: Global,
    first: u8,
    text: &[u8],
    at: u32,
) -> Result<(Option<Tok>, usize), LexError>
    requires size { at + length text.now < 2 ^ 31 }
    requires first { slice_get text.now 0 ≡ Some first }
    ensures value { Gives (pieces.piece at first text.now) result }
    ensures within { IfOk result (λ found. found.1 ≤ length text.now) }
    ensures some { IfOk result (λ found. 0 < found.1) }
{
    if is_white(first) {
        return Ok((None, 1));
    }
    if begins_line_comment(text) {
        return Ok((None, line_len(text)));
    }
    if begins_comment(text) {
        return comment_at(text, at);
    }
    if first == b'"' {
        return text_token(alloc, text, at);
    }
    if first == b'\'' {
        return character_token(text, at);
    }
    if begins_name(text) {
        return Ok(name_at(alloc, text)?);
    }
    if begins_class(text) {
        return Ok(class_at(alloc, text)?);
    }
    if first.is_ascii_digit() {
        return number_at(text, at);
    }
    mark_token(text, at)
}

/// What stands at `at`, where no further token may begin if the list is full.
#[tactic(auto, unfolding(crate::specs::Pieces::next_piece))]
pub(crate) fn next_piece(
    alloc: Global,
    full: bool,
    first: u8,
    text: &[u8],
    at: u32,
) -> Result<(Option<Tok>, usize), LexError>
    requires size { at + length text.now < 2 ^ 31 }
    requires first { slice_get text.now 0 ≡ Some first }
    ensures value { Gives (pieces.next_piece full at first text.now) result }
    ensures within { IfOk result (λ found. found.1 ≤ length text.now) }
    ensures some { IfOk result (λ found. 0 < found.1) }
    ensures room { full ≡ true → IfOk result (λ found. found.0 ≡ None) }
{
    if full && matches!(first, b'"' | b'\'' | b'0'..=b'9') {
        return Err(LexError::TooManyTokens(at));
    }
    let (found, n) = piece_at(alloc, first, text, at)?;
    if full && found.is_some() {
        return Err(LexError::TooManyTokens(at));
    }
    Ok((found, n))
}
