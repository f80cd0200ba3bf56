//! A source, a sink and a feed in memory, which fail where they are told to. Their calls are
//! numbered from 0.
ghost use Rattle.std.specs.Prelude.{◌≡◌, ◌↔◌, ◌⊎◌, ◌<◌, ◌≤◌, ◌-◌, ◌∷◌, [], length, drop, take, min, Contains, IsErr, IsErrOf, IfOk, IfSome, OnOk, OnErr, Some, option_map, vec_len, vec_capacity, IsTrue, ◌++◌, ◌+◌};
ghost use Rattle.std.specs.Io.{ReadsAtMost, WritesAtMost};
ghost use Rattle.std.specs.Io.KnownBytes.{ReadConsumes, WriteAppends};
ghost use Rattle.mt_io.specs.Causes.{HasCause, IsFull, counted};
ghost use Rattle.mt_io.specs.Memory.{MemoryReader, MemoryWriter, MemoryTables, reader_faults, writer_faults, tables_faults, after_read, after_read_fault, after_write, after_write_fault, after_table, after_table_fault};
ghost use Rattle.mt_io.specs.Tables.{IsTooLong, table_in};

use crate::moves::{append, give, is_listed};
use crate::shelf::Shelf;
use crate::traits::{Failed, Feed, FeedFault, Sink, Source};
use mt_base::OutOfMemory;
use std::alloc::Global;
use std::marker::Model;

/// A source over bytes in memory.
#[derive(Drop)]
pub struct MemSource {
    bytes: Vec<u8>,
    at: usize,
    piece: usize,
    failing: Vec<u64>,
    calls: u64,
    faults: u64,
}

impl Model for MemSource {
    ghost Value = { MemoryReader };

    ghost view = { λ s. record {
      left = drop s.at s.bytes.items;
      piece = s.piece;
      failing = s.failing.items;
      calls = s.calls;
      faults = s.faults;
    } };

    ghost invariant = { λ s. (1 ≤ s.piece) × (s.at ≤ vec_len s.bytes) };
}

impl MemSource {
    /// A source of these bytes, of which a read gives at most `piece`. The reads whose numbers are
    /// listed fail.
    pub fn build(bytes: Vec<u8>, piece: usize, failing: Vec<u64>) -> MemSource
        requires { 1 ≤ piece }
        ensures { result ≡ record {
          left = bytes.items;
          piece = piece;
          failing = failing.items;
          calls = 0;
          faults = 0;
        } }
    {
        MemSource {
            bytes,
            at: 0,
            piece,
            failing,
            calls: 0,
            faults: 0,
        }
    }
}

impl Source for MemSource {
    ghost left = { λ s. Some s.left };

    ghost faults = { reader_faults };

    fn read(&mut self, buf: &mut [u8]) -> Result<usize, Failed>
        // what every source promises
        ensures bound { ReadsAtMost result buf.new }
        ensures bytes { ReadConsumes (Some self.old.left) (Some self.new.left) result buf.new }
        ensures cause { HasCause (reader_faults self.old) (reader_faults self.new) result }

        // when it fails, and how many bytes it gives
        ensures fails { IsErr result ↔ Contains self.old.failing self.old.calls }
        ensures gives { IfOk result (λ n. n ≡ min (min (length self.old.left) self.old.piece)
            (length buf.old)) }

        // the source afterwards
        ensures ok { IfOk result (λ n. self.new ≡ after_read self.old n) }
        ensures err { OnErr result (self.new ≡ after_read_fault self.old) }
    {
        let number = self.calls;
        self.calls = number.saturating_add(1);
        if is_listed(&self.failing, number) {
            self.faults = self.faults.saturating_add(1);
            return Err(Failed);
        }
        let count = give(&self.bytes, self.at, self.piece, buf);
        self.at += count;
        Ok(count)
    }
}

/// A sink into memory, with room for so many bytes.
#[derive(Drop)]
pub struct MemSink {
    bytes: Vec<u8>,
    room: usize,
    failing: Vec<u64>,
    calls: u64,
    faults: u64,
}

impl Model for MemSink {
    ghost Value = { MemoryWriter };

    ghost view = { λ s. record {
      held = s.bytes.items;
      room = s.room;
      failing = s.failing.items;
      calls = s.calls;
      faults = s.faults;
    } };

    ghost invariant = { λ s. (vec_len s.bytes ≤ s.room) × (s.room ≤ vec_capacity s.bytes) };
}

impl MemSink {
    /// A sink that takes at most `room` bytes. The writes whose numbers are listed fail.
    /// `OutOfMemory` where there is no memory.
    pub fn build(alloc: Global, room: usize, failing: Vec<u64>) -> Result<MemSink, OutOfMemory>
        ensures { IfOk result (λ s. s ≡ record {
          held = [];
          room = room;
          failing = failing.items;
          calls = 0;
          faults = 0;
        }) }
    {
        Ok(MemSink {
            bytes: Vec::with_capacity(alloc, room)?,
            room,
            failing,
            calls: 0,
            faults: 0,
        })
    }

    /// What is held.
    pub fn bytes(&self) -> &[u8]
        ensures { result.now ≡ self.now.held }
    {
        &self.bytes
    }
}

impl Sink for MemSink {
    ghost written = { λ s. Some s.held };

    ghost faults = { writer_faults };

    fn write(&mut self, bytes: &[u8]) -> Result<usize, Failed>
        // what every sink promises
        ensures bound { WritesAtMost result bytes.now }
        ensures bytes { WriteAppends (Some self.old.held) (Some self.new.held) result bytes.now }
        ensures progress { IfOk result (λ n. 0 < length bytes.now → 0 < n) }
        ensures cause { HasCause (writer_faults self.old) (writer_faults self.new) result }
        ensures full { OnErr result (IsFull (writer_faults self.new) (Some self.new.held)) }

        // when it fails, and how many bytes it takes
        ensures fails { IsErr result ↔ (Contains self.old.failing self.old.calls
            ⊎ ((0 < length bytes.now) × (self.old.room ≤ length self.old.held))) }
        ensures takes { IfOk result (λ n. n ≡ min (length bytes.now)
            (self.old.room - length self.old.held)) }

        // the sink afterwards
        ensures ok { IfOk result (λ n. self.new ≡ after_write self.old (take n bytes.now)) }
        ensures err { OnErr result (self.new ≡ after_write_fault self.old) }
    {
        let number = self.calls;
        self.calls = number.saturating_add(1);
        let left = self.room - self.bytes.len();
        if is_listed(&self.failing, number) || (left == 0 && !bytes.is_empty()) {
            self.faults = self.faults.saturating_add(1);
            return Err(Failed);
        }
        let count = left.min(bytes.len());
        append(&mut self.bytes, &bytes[..count]);
        Ok(count)
    }
}

/// Tables in memory.
#[derive(Drop)]
pub struct MemFeed {
    shelf: Shelf,
    failing: Vec<u64>,
    calls: u64,
    faults: u64,
}

impl Model for MemFeed {
    ghost Value = { MemoryTables };

    ghost view = { λ s. record {
      tables = s.shelf;
      failing = s.failing.items;
      calls = s.calls;
      faults = s.faults;
    } };
}

impl MemFeed {
    /// A feed without tables. The calls of `table` whose numbers are listed fail.
    pub fn build(alloc: Global, failing: Vec<u64>) -> MemFeed
        ensures { result ≡ record {
          tables = [];
          failing = failing.items;
          calls = 0;
          faults = 0;
        } }
    {
        MemFeed {
            shelf: Shelf::build(alloc),
            failing,
            calls: 0,
            faults: 0,
        }
    }

    /// Makes `bytes` the table of this folder and name. `OutOfMemory` where there is no memory;
    /// then nothing changes.
    pub fn add(&mut self, folder: &str, name: &str, bytes: Vec<u8>) -> Result<(), OutOfMemory>
        ensures ok { OnOk result (self.new ≡
            record self.old { tables = (folder.now, name.now, bytes.items) ∷ self.old.tables }) }
        ensures err { OnErr result (self.new ≡ self.old) }
    {
        self.shelf.add(folder, name, bytes)
    }
}

impl Feed for MemFeed {
    ghost tables = { λ s. Some (table_in s.tables) };

    ghost faults = { tables_faults };

    fn table(&mut self, folder: &str, name: &str) -> Result<Option<Vec<u8>>, FeedFault>
        // what every feed promises
        ensures bytes { IfOk result (λ table.
            table_in self.old.tables folder.now name.now ≡ option_map (λ v. v.items) table) }
        ensures small { IfOk result (λ table. IfSome table (λ v. length v.items ≤ 268435456)) }
        ensures long { IsErrOf result FeedFault.TooLong
            → IsTooLong (table_in self.old.tables folder.now name.now) }
        ensures failed { IsErrOf result FeedFault.Failed
            → Some (tables_faults self.new) ≡ counted (tables_faults self.old) }
        ensures answered { ¬ (IsErrOf result FeedFault.Failed)
            → tables_faults self.new ≡ tables_faults self.old }
        ensures same { Some (table_in self.new.tables) ≡ Some (table_in self.old.tables) }

        // when it fails, and the feed afterwards
        ensures listed { Contains self.old.failing self.old.calls
            → IsErrOf result FeedFault.Failed × (self.new ≡ after_table_fault self.old) }
        ensures not_listed { ¬ (Contains self.old.failing self.old.calls)
            → ¬ (IsErrOf result FeedFault.Failed) × (self.new ≡ after_table self.old) }
    {
        let number = self.calls;
        self.calls = number.saturating_add(1);
        if is_listed(&self.failing, number) {
            self.faults = self.faults.saturating_add(1);
            return Err(FeedFault::Failed);
        }
        self.shelf.copy_of(folder, name)
    }
}
