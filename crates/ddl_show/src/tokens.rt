ghost use Rattle.std.specs.Prelude.{◌≡◌, ◌++◌, [], ◌∷◌, OnOk};
ghost use Rattle.ddl_token.specs.declared.token.Tok.TheVariants as k;
ghost use Rattle.ddl_tree.specs.Print.{number};
ghost use Rattle.ddl_show.specs.Writes.{Begins, Writes, closed};

use crate::digits::put_digits;
use crate::literals::put_quoted;
use ddl_base::NoMemory;
use ddl_token::{Mark, Word};
use ddl_tree::Number;

/// Begins a line with a word.
#[tactic(auto, using(crate::proofs::Closing::line_begun))]
pub(crate) fn begin_line(text: &mut Vec<u8>, word: Word) -> Result<(), NoMemory>
    ensures { OnOk result (Begins text.old.items (λ rest. k.Word word ∷ rest) text.new.items) }
{
    text.extend_from_slice(word.spelling())?;
    Ok(())
}

/// Ends a line.
#[tactic(auto, unfolding(crate::specs::Writes::closed, crate::specs::Show::spaced))]
pub(crate) fn end_line(text: &mut Vec<u8>) -> Result<(), NoMemory>
    ensures { OnOk result (text.new.items ≡ closed text.old.items []) }
{
    text.push(b'\n')?;
    Ok(())
}

/// Writes a space and the bytes of a token.
fn put_spelling(text: &mut Vec<u8>, spelling: &[u8]) -> Result<(), NoMemory>
    ensures { OnOk result (text.new.items ≡ text.old.items ++ 32 ∷ spelling.now) }
{
    text.push(b' ')?;
    text.extend_from_slice(spelling)?;
    Ok(())
}

/// Writes a word.
#[tactic(auto, using(crate::proofs::Closing::closed_more), unfolding(crate::specs::Show::spelled))]
pub(crate) fn put_word(text: &mut Vec<u8>, word: Word) -> Result<(), NoMemory>
    ensures { OnOk result (Writes text.old.items (λ rest. k.Word word ∷ rest) text.new.items) }
{
    put_spelling(text, word.spelling())
}

/// Writes a mark.
#[tactic(auto, using(crate::proofs::Closing::closed_more), unfolding(crate::specs::Show::spelled))]
pub(crate) fn put_mark(text: &mut Vec<u8>, mark: Mark) -> Result<(), NoMemory>
    ensures { OnOk result (Writes text.old.items (λ rest. k.Mark mark ∷ rest) text.new.items) }
{
    put_spelling(text, mark.spelling())
}

/// Writes a name, of whichever kind.
#[tactic(auto, using(crate::proofs::Closing::closed_more), unfolding(crate::specs::Show::spelled))]
pub(crate) fn put_name(text: &mut Vec<u8>, name: &[u8]) -> Result<(), NoMemory>
    ensures upper { OnOk result (Writes text.old.items (λ rest. k.Upper name.now ∷ rest) text.new.items) }
    ensures lower { OnOk result (Writes text.old.items (λ rest. k.Lower name.now ∷ rest) text.new.items) }
    ensures class { OnOk result (Writes text.old.items (λ rest. k.Class name.now ∷ rest) text.new.items) }
{
    put_spelling(text, name)
}

/// Writes a number.
#[tactic(auto, using(crate::proofs::Closing::closed_number))]
pub(crate) fn put_number(text: &mut Vec<u8>, written: &Number) -> Result<(), NoMemory>
    ensures { OnOk result (Writes text.old.items (λ rest. number written.now ∷ rest) text.new.items) }
{
    put_digits(text, written.base, written.digits, written.value)
}

/// Writes a character.
#[tactic(auto, using(crate::proofs::Closing::closed_more), unfolding(crate::specs::Show::spelled))]
pub(crate) fn put_char(text: &mut Vec<u8>, byte: u8) -> Result<(), NoMemory>
    ensures { OnOk result (Writes text.old.items (λ rest. k.Char byte ∷ rest) text.new.items) }
{
    put_quoted(text, b'\'', &[byte])
}

/// Writes a text literal.
#[tactic(auto, using(crate::proofs::Closing::closed_more), unfolding(crate::specs::Show::spelled))]
pub(crate) fn put_text(text: &mut Vec<u8>, bytes: &[u8]) -> Result<(), NoMemory>
    ensures { OnOk result (Writes text.old.items (λ rest. k.Text bytes.now ∷ rest) text.new.items) }
{
    put_quoted(text, b'"', bytes)
}
