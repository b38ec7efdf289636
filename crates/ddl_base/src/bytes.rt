ghost use Rattle.std.specs.Prelude.{◌≡◌, IfOk};

use crate::NoMemory;
use std::alloc::Global;
use std::marker::Model;

/// An owned list of bytes, as a name or the text of a literal. Contracts see the list.
#[derive(Debug, Drop)]
pub struct Bytes {
    bytes: Vec<u8>,
}

impl Model for Bytes {
    ghost use Rattle.std.specs.Prelude.{List, ℕ};

    ghost Value = { List ℕ };

    ghost view = { λ b. b.bytes.items };
}

impl Bytes {
    /// A copy of `text`.
    pub fn of(alloc: Global, text: &[u8]) -> Result<Self, NoMemory>
        ensures { IfOk result (λ bytes. bytes ≡ text.now) }
    {
        Ok(Bytes {
            bytes: text.to_vec(alloc)?,
        })
    }

    /// The bytes, without a copy.
    pub fn get(&self) -> &[u8]
        ensures { result.now ≡ self.now }
    {
        &self.bytes
    }

    /// The bytes as a vector, without memory.
    pub fn into_vec(self) -> Vec<u8>
        ensures { result.items ≡ self }
    {
        self.bytes
    }
}

impl From<Vec<u8>> for Bytes {
    ghost from_gives = { λ v b. b ≡ v.items };

    fn from(bytes: Vec<u8>) -> Self {
        Bytes { bytes }
    }
}
