//! The names of modules, and of their files.

ghost use Rattle.std.specs.Prelude.{◌≡◌, ◌≤◌, length, string_bytes, encode_utf8_all, IfOk};
ghost use Rattle.ddl_modules.specs.Files.{folder, module_file, module_name, shown};

use ddl_base::NoMemory;
use std::alloc::Global;
use std::str;

/// The name of a root's module: what stands after the last slash.
pub fn module_name(root: &[u8]) -> &[u8]
    ensures name { result.now ≡ module_name root.now }
    ensures within { length result.now ≤ length root.now }
{
    let mut start = 0;
    for (at, byte) in root.iter().enumerate() {
        if *byte == b'/' {
            start = at + 1;
        }
    }
    &root[start..]
}

/// The directory of a root: what stands before the name.
fn folder(root: &[u8]) -> &[u8]
    ensures { result.now ≡ folder root.now }
{
    let name = module_name(root);
    &root[..root.len() - name.len()]
}

/// Each byte as the character of that number.
fn characters(alloc: Global, bytes: &[u8]) -> Result<String, NoMemory>
    ensures { IfOk result (λ text. string_bytes text ≡ encode_utf8_all bytes.now) }
{
    Ok(bytes.iter().map(|byte| char::from(*byte)).collect(alloc)?)
}

/// Bytes as text: themselves, or where they are no UTF-8 each as the character of that number.
fn text_of(alloc: Global, bytes: &[u8]) -> Result<String, NoMemory>
    ensures { IfOk result (λ text. string_bytes text ≡ shown bytes.now) }
{
    match str::from_utf8(bytes) {
        Ok(text) => Ok(String::from_str(alloc, text)?),
        Err(_) => characters(alloc, bytes),
    }
}

/// The file of a module of this name, in the directory of a root.
pub(crate) fn module_file(alloc: Global, root: &[u8], name: &[u8]) -> Result<String, NoMemory>
    ensures { IfOk result (λ file. string_bytes file ≡ module_file root.now name.now) }
{
    let mut bytes = folder(root).to_vec(alloc)?;
    bytes.extend_from_slice(name)?;
    bytes.extend_from_slice(b".ddl")?;
    text_of(alloc, &bytes)
}
