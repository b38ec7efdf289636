ghost use Rattle.std.specs.Prelude.{◌≡◌, OnOk, OnErr};
ghost use Rattle.ddl_slot_map.specs.Pushed.{with_word};

use ddl_base::{Bytes, NoMemory};
use ddl_slots::{NodeKind, Word};
use std::marker::Model;

/// A node whose words code can read. Contracts see a node of `ddl_slots`.
#[derive(Drop)]
pub struct Node {
    kind: NodeKind,
    words: Vec<Word>,
    bytes: Bytes,
}

impl Model for Node {
    ghost use Rattle.ddl_slots.specs.declared.node.Node.{Node as Held};

    ghost Value = { Held };

    ghost view = { λ n. record { kind = n.kind; words = n.words.items; bytes = n.bytes } };
}

impl Node {
    /// A node of these parts.
    pub fn new(kind: NodeKind, words: Vec<Word>, bytes: Bytes) -> Self
        ensures kind { result.kind ≡ kind }
        ensures words { result.words ≡ words.items }
        ensures bytes { result.bytes ≡ bytes }
    {
        Node { kind, words, bytes }
    }

    /// What the node is.
    pub fn kind(&self) -> NodeKind
        ensures { result ≡ self.now.kind }
    {
        self.kind
    }

    /// Its words, without a copy.
    pub fn words(&self) -> &[Word]
        ensures { result.now ≡ self.now.words }
    {
        &self.words
    }

    /// Its bytes, without a copy.
    pub fn bytes(&self) -> &[u8]
        ensures { result.now ≡ self.now.bytes }
    {
        self.bytes.get()
    }

    /// One word more at the end. Where there is no memory the node is as it was.
    pub fn push(&mut self, word: Word) -> Result<(), NoMemory>
        ensures pushed { OnOk result (self.new ≡ with_word self.old word) }
        ensures kept { OnErr result (self.new ≡ self.old) }
    {
        self.words.push(word)?;
        Ok(())
    }

    /// Its words as a vector, without memory.
    pub fn into_words(self) -> Vec<Word>
        ensures { result.items ≡ self.words }
    {
        self.words
    }
}
