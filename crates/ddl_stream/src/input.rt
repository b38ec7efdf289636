ghost use Rattle.std.specs.Prelude.{◌≡◌, ◌<◌, length};
ghost use Rattle.ddl_outside.specs.Files.{Later, TouchesOnly};
ghost use Rattle.ddl_stream.specs.Input.{Agrees, IsOpened, IsGot};

use ddl_base::Bytes;
use ddl_outside::{Files, Whole, read_whole};
use std::alloc::Global;
use std::marker::Model;

/// The greatest length of an input.
const MOST: u64 = 1 << 30;

/// Why an input is not opened.
#[derive(Clone, Copy, Debug, PartialEq, Eq)]
pub enum OpenError {
    /// The file is not there.
    Missing,
    /// A call failed.
    ReadFault,
    /// The file has more than 2 ^ 30 bytes.
    TooLarge,
    /// No memory to hold its bytes.
    NoMemory,
}

/// A byte of an input, or why it is not here.
#[derive(Clone, Copy, Debug, PartialEq, Eq)]
pub enum GotByte {
    Byte(u8),
    /// The file is not there.
    Missing,
    /// A call failed.
    ReadFault,
    /// No memory to hold bytes.
    NoMemory,
}

/// An input file of which all bytes were read.
#[derive(Drop)]
pub struct Input {
    file: Bytes,
    content: Vec<u8>,
}

impl Model for Input {
    ghost use Rattle.std.specs.Prelude.{◌≤◌, length};
    ghost use Rattle.ddl_stream.specs.Input.{Kept, most};

    ghost Value = { Kept };

    ghost view = { λ i. record { name = i.file; bytes = i.content.items } };

    ghost invariant = { λ i. length i.content.items ≤ most };
}

impl Input {
    /// Reads a whole file, so that later bytes need no call of files.
    pub fn open<F: Files>(alloc: Global, files: &mut F, name: &str) -> Result<Self, OpenError>
        ensures later { Later (F.state files.old) (F.state files.new) }
        ensures only { TouchesOnly name.now (F.state files.old) (F.state files.new) }
        ensures answer { IsOpened (F.state files.old) (F.state files.new) name.now result }
    {
        let Ok(file) = Bytes::of(alloc, name.as_bytes()) else {
            return Err(OpenError::NoMemory);
        };
        match read_whole(alloc, files, name, MOST) {
            Ok(Whole::Bytes(content)) => Ok(Input { file, content }),
            Ok(Whole::Longer(_)) => Err(OpenError::TooLarge),
            Ok(Whole::Absent) => Err(OpenError::Missing),
            Ok(Whole::Failed) => Err(OpenError::ReadFault),
            Err(_) => Err(OpenError::NoMemory),
        }
    }

    /// How many bytes there are.
    pub fn length(&self) -> u64
        ensures { result ≡ length self.now.bytes }
    {
        self.content.len() as u64
    }

    /// The byte at a place. The files must agree with the input, and still do after the call.
    pub fn byte<F: Files>(&mut self, files: &mut F, at: u64) -> GotByte
        requires agree { Agrees (F.state files.old) self.old }
        requires within { at < length self.old.bytes }
        ensures same { self.new ≡ self.old }
        ensures later { Later (F.state files.old) (F.state files.new) }
        ensures only { TouchesOnly self.old.name (F.state files.old) (F.state files.new) }
        ensures agree { Agrees (F.state files.new) self.new }
        ensures answer { IsGot (F.state files.old) (F.state files.new) self.old at result }
    {
        GotByte::Byte(self.content[at as usize])
    }
}
