ghost use Rattle.std.specs.Prelude.{◌≡◌, ◌+◌, ◌^◌, ◌<◌, ◌≤◌, [], length, option_copied, slice_get, IfOk, OnErr};
ghost use Rattle.ddl_base.specs.Names.{AreDistinct, IsWith};

use crate::NoMemory;
use indexmap::IndexSet;
use std::alloc::Global;
use std::marker::Model;

/// Texts with a number each, in the order in which they were first seen. Contracts see the list of the texts, which are
/// distinct; a text's number is its place.
#[derive(Drop)]
pub struct Names {
    texts: IndexSet<Vec<u8>>,
}

impl Model for Names {
    ghost use Rattle.std.specs.Prelude.{List, ℕ, map};
    ghost use Rattle.ddl_base.specs.Names.{AreDistinct};

    ghost Value = { List (List ℕ) };

    ghost view = { λ n. map (λ text. text.items) n.texts.keys };

    ghost invariant = { λ n. AreDistinct (map (λ text. text.items) n.texts.keys) };
}

fn copied(alloc: Global, text: &[u8]) -> Result<Vec<u8>, NoMemory>
    ensures { IfOk result (λ copy. copy.items ≡ text.now) }
{
    Ok(text.to_vec(alloc)?)
}

impl Names {
    /// No text yet.
    pub fn new(alloc: Global) -> Self
        ensures { result ≡ [] }
    {
        Names {
            texts: IndexSet::new(alloc),
        }
    }

    /// The number of a text, which is appended where it is new. Refused memory leaves the list as it was.
    pub fn intern(&mut self, text: &[u8]) -> Result<u32, NoMemory>
        requires { length self.old + 1 < 2 ^ 32 }
        ensures interned { IfOk result (λ name. IsWith self.old text.now name self.new) }
        ensures grows { length self.new ≤ length self.old + 1 }
        ensures unchanged { OnErr result (self.new ≡ self.old) }
        ensures distinct { AreDistinct self.new }
    {
        if let Some(place) = self.texts.get_index_of(text) {
            return Ok(place as u32);
        }
        let owned = copied(*self.texts.allocator(), text)?;
        let (place, _) = self.texts.insert_full(owned)?;
        Ok(place as u32)
    }

    /// The text of a number, or `None` exactly where no text has it.
    pub fn text(&self, name: u32) -> Option<&[u8]>
        ensures text { option_copied result ≡ slice_get self.now name }
        ensures distinct { AreDistinct self.now }
    {
        let text = self.texts.get_index(name as usize)?;
        Some(text.as_slice())
    }
}
