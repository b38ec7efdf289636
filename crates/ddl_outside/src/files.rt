ghost use Rattle.std.specs.Prelude.{◌≡◌, ◌<◌, length};
ghost use Rattle.ddl_outside.specs.Files.{FilesState, IsTold, IsToldAsHeld, reach_after};
ghost use Rattle.ddl_outside.specs.Files.{Later, TouchesOnly, IsLength, IsPiece};

/// What is known of a file's length.
#[derive(Clone, Copy, PartialEq, Eq)]
pub enum Length {
    /// The length in bytes, which stays the answer for this name.
    Bytes(u64),
    /// The file is not there.
    Absent,
    /// The call failed.
    Failed,
    /// No memory to keep the length, and nothing was kept.
    NoMemory,
}

/// What a read of a file gave.
#[derive(Clone, Copy, PartialEq, Eq)]
pub enum Piece {
    /// So many bytes, at least one.
    Got(usize),
    /// There is nothing at this offset: the file ends before it.
    End,
    /// The file is not there.
    Absent,
    /// The call failed.
    Failed,
}

/// Files by name, read at any offset.
pub trait Files {
    /// What contracts know of the files: what is held, what was told, and what went wrong.
    ghost state: { Self → FilesState };

    /// The length of a file. Only this call makes a length told.
    fn length(&mut self, name: &str) -> Length
        ensures later { Later (state self.old) (state self.new) }
        ensures only { TouchesOnly name.now (state self.old) (state self.new) }
        ensures reach { (state self.new).reach ≡ (state self.old).reach }
        ensures answer { IsLength (state self.old) (state self.new) name.now result };

    /// Reads bytes of a file whose length was told, at an offset. The bytes of `into` past those
    /// that are counted may be anything.
    fn read(&mut self, name: &str, at: u64, into: &mut [u8]) -> Piece
        requires told { IsTold (state self.old) name.now }
        requires room { 0 < length into.old }
        ensures later { Later (state self.old) (state self.new) }
        ensures only { TouchesOnly name.now (state self.old) (state self.new) }
        ensures told { (state self.new).told ≡ (state self.old).told }
        ensures reach { (state self.new).reach name.now
            ≡ reach_after (state self.old) name.now at (length into.old) }
        ensures answer { IsPiece (state self.old) (state self.new) name.now at into.new result };

    /// A file whose length was told is there with that length, where content is told.
    ghost told_is_held: { (files : Self) → IsToldAsHeld (state files) };
}
