ghost use Rattle.std.specs.Prelude.{◌≡◌, codes, encode_utf8_all, string_bytes, if◌then◌else◌, IfOk};
ghost use Rattle.ddl_report.specs.Names.{shown};

use ddl_base::NoMemory;
use std::alloc::Global;
use std::str;

/// Each byte as the character of that number.
pub(crate) fn characters(alloc: Global, bytes: &[u8]) -> Result<String, NoMemory>
    ensures { IfOk result (λ text. string_bytes text ≡ encode_utf8_all bytes.now) }
{
    Ok(bytes.iter().map(|byte| char::from(*byte)).collect(alloc)?)
}

/// A name as text: itself, or where it is no UTF-8 each byte as the character of that number.
pub(crate) fn name_text(alloc: Global, name: &[u8]) -> Result<String, NoMemory>
    ensures { IfOk result (λ text. string_bytes text ≡ shown name.now) }
{
    match str::from_utf8(name) {
        Ok(text) => Ok(String::from_str(alloc, text)?),
        Err(_) => characters(alloc, name),
    }
}

/// Where a stream of bytes is.
pub(crate) fn place_name(in_input: bool) -> &'static str
    ensures { result.now ≡ (if in_input then codes "input" else codes "array") }
{
    if in_input { "input" } else { "array" }
}
