ghost use Rattle.std.specs.Prelude.{◌≡◌, ◌-◌, ◌<◌, ◌≤◌, ◌∷◌, ◌++◌, [], length, map, take, drop};
ghost use Rattle.std.specs.Prelude.{min, replicate, option_map, OnOk, OnErr};
ghost use Rattle.ddl_outside.specs.Counts.{one_more};
ghost use Rattle.ddl_outside.specs.Named.{at_name, change_at};
ghost use Rattle.ddl_outside.specs.MemFiles.{bytes_of, entry_of, named_entry};
ghost use Rattle.ddl_outside.specs.MemFiles.{told_entry, asked_entry};

use crate::named::{Named, place};
use crate::{Files, Length, Piece};
use ddl_base::NoMemory;
use std::alloc::Global;
use std::marker::Model;

#[derive(Drop)]
enum Content {
    Stored(Vec<u8>),
    /// So many zero bytes, which are not stored.
    Zeros(u64),
}

#[derive(Drop)]
struct MemFile {
    content: Content,
    told: bool,
    reach: u64,
}

impl MemFile {
    fn length(&self) -> u64
        ensures { result ≡ length (bytes_of self.now.content) }
    {
        match &self.content {
            Content::Stored(bytes) => bytes.len() as u64,
            Content::Zeros(length) => *length,
        }
    }

    /// Copies bytes at an offset, as many as fit and are there, and says how many.
    fn copy(&self, at: u64, into: &mut [u8]) -> usize
        requires { at ≤ length (bytes_of self.now.content) }
        ensures count { result ≡ min (length into.old) (length (bytes_of self.now.content) - at) }
        ensures bytes { take result into.new ≡ take result (drop at (bytes_of self.now.content)) }
    {
        match &self.content {
            Content::Stored(bytes) => {
                let rest = &bytes[at as usize..];
                let count = rest.len().min(into.len());
                into[..count].copy_from_slice(&rest[..count]);
                count
            }
            Content::Zeros(length) => {
                let rest = *length - at;
                let count = rest.min(into.len() as u64) as usize;
                into[..count].fill(0);
                count
            }
        }
    }
}

/// The file of a name.
fn file_of<'a>(files: &'a [Named<MemFile>], name: &str) -> Option<&'a MemFile>
    ensures { option_map (λ f. entry_of f.now) result
        ≡ at_name (map named_entry files.now) name.now }
{
    let at = place(files, name)?;
    Some(&files[at].thing)
}

/// The length of the file of a name, which from now on is told.
fn tell(files: &mut [Named<MemFile>], name: &str) -> Option<u64>
    ensures length { result
        ≡ option_map (λ f. length f.bytes) (at_name (map named_entry files.old) name.now) }
    ensures files { map named_entry files.new
        ≡ change_at told_entry (map named_entry files.old) name.now }
{
    let at = place(files, name)?;
    let file = &mut files[at].thing;
    file.told = true;
    Some(file.length())
}

/// Notes that so many bytes of the file of a name are asked for at an offset.
fn ask(files: &mut [Named<MemFile>], name: &str, at: u64, count: usize)
    ensures { map named_entry files.new
        ≡ change_at (asked_entry at count) (map named_entry files.old) name.now }
{
    if let Some(found) = place(files, name) {
        let file = &mut files[found].thing;
        let end = at.saturating_add(count as u64).min(file.length());
        file.reach = file.reach.max(end);
    }
}

/// Files in memory, which fail at the calls that they are told.
#[derive(Drop)]
pub struct MemFiles {
    alloc: Global,
    files: Vec<Named<MemFile>>,
    failing: Vec<u64>,
    calls: u64,
    faults: u64,
    misses: u64,
}

impl Model for MemFiles {
    ghost use Rattle.std.specs.Prelude.{map};
    ghost use Rattle.ddl_outside.specs.MemFiles.{MemState, named_entry};

    ghost Value = { MemState };

    ghost view = { λ m. record {
      files = map named_entry m.files.items;
      failing = m.failing.items;
      calls = m.calls;
      faults = m.faults;
      misses = m.misses;
    } };
}

impl MemFiles {
    ghost use Rattle.ddl_outside.specs.MemFiles.{no_files, added, counted, fails};

    /// No files, and no call that fails.
    pub fn new(alloc: Global) -> Self
        ensures { result ≡ no_files }
    {
        MemFiles {
            alloc,
            files: Vec::new(alloc),
            failing: Vec::new(alloc),
            calls: 0,
            faults: 0,
            misses: 0,
        }
    }

    /// Adds a file, before the first call of a method of `Files`. The last one added under a name
    /// counts.
    pub fn add(&mut self, name: &str, bytes: Vec<u8>) -> Result<(), NoMemory>
        requires { self.old.calls ≡ 0 }
        ensures ok { OnOk result (self.new ≡ added name.now bytes.items self.old) }
        ensures err { OnErr result (self.new ≡ self.old) }
    {
        self.put(name, Content::Stored(bytes))
    }

    /// Adds a file of so many zero bytes, which are not stored, as `add` does.
    pub fn add_zeros(&mut self, name: &str, length: u64) -> Result<(), NoMemory>
        requires { self.old.calls ≡ 0 }
        ensures ok { OnOk result (self.new ≡ added name.now (replicate length 0) self.old) }
        ensures err { OnErr result (self.new ≡ self.old) }
    {
        self.put(name, Content::Zeros(length))
    }

    /// Makes the call of this number fail, counted from 1 over both methods of `Files`.
    pub fn fail_at(&mut self, call: u64) -> Result<(), NoMemory>
        ensures ok { OnOk result (self.new ≡ record self.old {
          failing = self.old.failing ++ call ∷ [];
        }) }
        ensures err { OnErr result (self.new ≡ self.old) }
    {
        self.failing.push(call)?;
        Ok(())
    }

    /// Puts a file before all others.
    fn put(&mut self, name: &str, content: Content) -> Result<(), NoMemory>
        ensures ok { OnOk result (self.new ≡ added name.now (bytes_of content) self.old) }
        ensures err { OnErr result (self.new ≡ self.old) }
    {
        let name = String::from_str(self.alloc, name)?;
        let thing = MemFile {
            content,
            told: false,
            reach: 0,
        };
        self.files.insert(0, Named { name, thing })?;
        Ok(())
    }

    /// The length of a file, which from now on is told.
    fn told(&mut self, name: &str) -> Option<u64>
        ensures length { result
            ≡ option_map (λ f. length f.bytes) (at_name self.old.files name.now) }
        ensures state { self.new ≡ record self.old {
          files = change_at told_entry self.old.files name.now;
        } }
    {
        tell(&mut self.files, name)
    }

    /// Notes that so many bytes of a file are asked for at an offset.
    fn asked(&mut self, name: &str, at: u64, count: usize)
        ensures { self.new ≡ record self.old {
          files = change_at (asked_entry at count) self.old.files name.now;
        } }
    {
        ask(&mut self.files, name, at, count);
    }

    /// Counts a file that is not there.
    fn miss(&mut self)
        ensures { self.new ≡ record self.old { misses = one_more self.old.misses } }
    {
        self.misses = self.misses.saturating_add(1);
    }

    /// Counts a failure.
    fn fault(&mut self)
        ensures { self.new ≡ record self.old { faults = one_more self.old.faults } }
    {
        self.faults = self.faults.saturating_add(1);
    }

    /// Counts a call, and says whether it fails.
    fn counts_failing(&mut self) -> bool
        ensures state { self.new ≡ counted self.old }
        ensures fails { result ≡ fails self.new }
    {
        self.calls = self.calls.saturating_add(1);
        let calls = self.calls;
        self.failing.iter().any(|call| *call == calls)
    }
}

impl MemFiles {
    ghost use Rattle.ddl_outside.specs.Files.{IsTold, IsPiece, Later};
    ghost use Rattle.ddl_outside.specs.MemFiles.{counted, fails, files_state, PieceAsNamed};

    /// Reads bytes of a file whose length was told, unless the call is one that fails.
    #[tactic(auto, using(crate::proofs::MemFilesLemmas::changes))]
    fn piece(&mut self, name: &str, at: u64, into: &mut [u8]) -> Piece
        requires told { IsTold (files_state self.old) name.now }
        requires room { 0 < length into.old }
        ensures files { self.new.files ≡ self.old.files }
        ensures failing { self.new.failing ≡ self.old.failing }
        ensures calls { self.new.calls ≡ one_more self.old.calls }
        ensures named { PieceAsNamed (fails (counted self.old)) result }
        ensures later { Later (files_state self.old) (files_state self.new) }
        ensures answer { IsPiece (files_state self.old) (files_state self.new)
            name.now at into.new result }
    {
        if self.counts_failing() {
            self.fault();
            return Piece::Failed;
        }
        match file_of(&self.files, name) {
            Some(file) if at < file.length() => Piece::Got(file.copy(at, into)),
            Some(_) => Piece::End,
            None => unreachable!(),
        }
    }
}

impl Files for MemFiles {
    ghost use Rattle.ddl_outside.specs.Files.{IsLength, IsPiece, IsTold, Later, TouchesOnly, reach_after};
    ghost use Rattle.ddl_outside.specs.MemFiles.{counted, fails, files_state};
    ghost use Rattle.ddl_outside.specs.MemFiles.{IsCounted, LengthAsNamed, PieceAsNamed};
    ghost use Rattle.ddl_outside.specs.Told.{told_in_held};

    ghost state = { files_state };

    ghost told_is_held = { λ m name n told. told_in_held m.files name n told };

    /// The call that `fail_at` names fails, and no other. Memory is never wanting.
    #[tactic(auto, using(crate::proofs::MemFilesLemmas::changes))]
    fn length(&mut self, name: &str) -> Length
        ensures later { Later (files_state self.old) (files_state self.new) }
        ensures only { TouchesOnly name.now (files_state self.old) (files_state self.new) }
        ensures reach { (files_state self.new).reach ≡ (files_state self.old).reach }
        ensures answer { IsLength (files_state self.old) (files_state self.new) name.now result }
        ensures named { LengthAsNamed (fails (counted self.old)) result }
        ensures calls { IsCounted self.old self.new }
    {
        if self.counts_failing() {
            self.fault();
            return Length::Failed;
        }
        match self.told(name) {
            Some(length) => Length::Bytes(length),
            None => {
                self.miss();
                Length::Absent
            }
        }
    }

    /// The call that `fail_at` names fails, and no other.
    fn read(&mut self, name: &str, at: u64, into: &mut [u8]) -> Piece
        requires told { IsTold (files_state self.old) name.now }
        requires room { 0 < length into.old }
        ensures later { Later (files_state self.old) (files_state self.new) }
        ensures only { TouchesOnly name.now (files_state self.old) (files_state self.new) }
        ensures told { (files_state self.new).told ≡ (files_state self.old).told }
        ensures reach { (files_state self.new).reach name.now
            ≡ reach_after (files_state self.old) name.now at (length into.old) }
        ensures answer { IsPiece (files_state self.old) (files_state self.new) name.now at into.new result }
        ensures named { PieceAsNamed (fails (counted self.old)) result }
        ensures calls { IsCounted self.old self.new }
    {
        self.asked(name, at, into.len());
        self.piece(name, at, into)
    }
}
