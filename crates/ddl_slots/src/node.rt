ghost use Rattle.std.specs.Prelude.{◌≡◌};

use crate::word::Word;
use ddl_base::Bytes;
use std::marker::Model;

/// What a node is.
#[derive(Clone, Copy, PartialEq, Eq)]
pub enum NodeKind {
    /// Its words are the fields in order.
    Record,
    /// Of the tag of this number; its word is the content.
    Union(u32),
    /// Its word is the content.
    Just,
    /// Its words are the elements.
    Array,
    /// An array of bytes: these are its bytes.
    ByteArray,
    /// An array that still grows: its words are the builder before it, `Unit` where there is none, and then some elements.
    Builder,
    /// Its words are the keys, which rise, each with its value after it.
    MapNode,
    /// Where a call comes back: its words are the continuation before it, `Unit` where there is none, and then the values that
    /// are kept.
    Frame { function: u32, block: u32 },
}

/// A list of words. Contracts see the list.
#[derive(Drop)]
pub struct Words {
    words: Vec<Word>,
}

impl Model for Words {
    ghost use Rattle.std.specs.Prelude.{List};
    ghost use Rattle.ddl_slots.specs.declared.word.Word.{Word};

    ghost Value = { List Word };

    ghost view = { λ w. w.words.items };
}

impl From<Vec<Word>> for Words {
    ghost from_gives = { λ v w. w ≡ v.items };

    fn from(words: Vec<Word>) -> Self {
        Words { words }
    }
}

/// A node: its kind, its words, and the bytes of an array of them.
#[derive(Drop)]
pub struct Node {
    pub kind: NodeKind,
    pub words: Words,
    pub bytes: Bytes,
}
