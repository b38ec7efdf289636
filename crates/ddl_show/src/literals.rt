ghost use Rattle.std.specs.Prelude.{◌≡◌, ◌++◌, ◌∷◌, OnOk};
ghost use Rattle.ddl_show.specs.Quoted.{written, all_written, quoted};

use crate::digits::digit;
use ddl_base::NoMemory;

/// Writes a byte of a literal.
fn put_byte(text: &mut Vec<u8>, quote: u8, byte: u8) -> Result<(), NoMemory>
    ensures { OnOk result (text.new.items ≡ text.old.items ++ written quote byte) }
{
    if byte == quote || byte == b'\\' {
        text.extend_from_slice(&[b'\\', byte])?;
    } else if (32..=126).contains(&byte) {
        text.push(byte)?;
    } else {
        text.extend_from_slice(&[b'\\', b'x', digit(byte / 16), digit(byte % 16)])?;
    }
    Ok(())
}

/// Writes the bytes of a literal.
fn put_bytes(text: &mut Vec<u8>, quote: u8, bytes: &[u8]) -> Result<(), NoMemory>
    ensures { OnOk result (text.new.items ≡ text.old.items ++ all_written quote bytes.now) }
{
    for byte in bytes {
        put_byte(text, quote, *byte)?;
    }
    Ok(())
}

/// Writes a space, and bytes between two quotes.
pub(crate) fn put_quoted(text: &mut Vec<u8>, quote: u8, bytes: &[u8]) -> Result<(), NoMemory>
    ensures { OnOk result (text.new.items ≡ text.old.items ++ 32 ∷ quoted quote bytes.now) }
{
    text.push(b' ')?;
    text.push(quote)?;
    put_bytes(text, quote, bytes)?;
    text.push(quote)?;
    Ok(())
}
