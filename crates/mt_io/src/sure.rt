//! A source, a sink and a feed in memory that never fail.
ghost use Rattle.std.specs.Prelude.{◌≡◌, ◌<◌, ◌≤◌, ◌∷◌, [], length, drop, min, IsOk, IsOkAnd, IfOk, IfSome, IsErrOf, OnOk, OnErr, Some, None, option_map, vec_len};
ghost use Rattle.std.specs.Io.{ReadsAtMost, WritesAtMost};
ghost use Rattle.std.specs.Io.KnownBytes.{ReadConsumes};
ghost use Rattle.mt_io.specs.Causes.{HasCause, no_faults};
ghost use Rattle.mt_io.specs.Memory.{SureReader};
ghost use Rattle.mt_io.specs.Tables.{IsTooLong, table_in};

use crate::moves::give;
use crate::shelf::Shelf;
use crate::traits::{Failed, Feed, FeedFault, Sink, Source};
use mt_base::OutOfMemory;
use std::alloc::Global;
use std::marker::Model;

/// A source over bytes in memory that never fails.
#[derive(Drop)]
pub struct SureSource {
    bytes: Vec<u8>,
    at: usize,
    piece: usize,
}

impl Model for SureSource {
    ghost Value = { SureReader };

    ghost view = { λ s. record {
      left = drop s.at s.bytes.items;
      piece = s.piece;
    } };

    ghost invariant = { λ s. (1 ≤ s.piece) × (s.at ≤ vec_len s.bytes) };
}

impl SureSource {
    /// A source of these bytes, of which a read gives at most `piece`.
    pub fn build(bytes: Vec<u8>, piece: usize) -> SureSource
        requires { 1 ≤ piece }
        ensures { result ≡ record {
          left = bytes.items;
          piece = piece;
        } }
    {
        SureSource {
            bytes,
            at: 0,
            piece,
        }
    }
}

impl Source for SureSource {
    ghost left = { λ s. Some s.left };

    ghost faults = { λ _. no_faults };

    fn read(&mut self, buf: &mut [u8]) -> Result<usize, Failed>
        ensures bound { ReadsAtMost result buf.new }
        ensures bytes { ReadConsumes (Some self.old.left) (Some self.new.left) result buf.new }
        ensures cause { HasCause no_faults no_faults result }
        ensures gives { IsOkAnd result (λ n.
            (n ≡ min (min (length self.old.left) self.old.piece) (length buf.old))
            × (self.new ≡ record self.old { left = drop n self.old.left })) }
    {
        let count = give(&self.bytes, self.at, self.piece, buf);
        self.at += count;
        Ok(count)
    }
}

/// A sink that takes every byte and keeps none. It tells no content.
#[derive(Clone, Copy, Debug, PartialEq, Eq)]
pub struct SureSink;

impl SureSink {
    /// A sink.
    pub fn build() -> SureSink {
        SureSink
    }
}

impl Sink for SureSink {
    ghost written = { λ _. None };

    ghost faults = { λ _. no_faults };

    fn write(&mut self, bytes: &[u8]) -> Result<usize, Failed>
        ensures bound { WritesAtMost result bytes.now }
        ensures progress { IfOk result (λ n. 0 < length bytes.now → 0 < n) }
        ensures cause { HasCause no_faults no_faults result }
        ensures takes { IsOkAnd result (λ n. n ≡ length bytes.now) }
    {
        Ok(bytes.len())
    }
}

/// Tables in memory, which never fail.
#[derive(Drop)]
pub struct SureFeed {
    shelf: Shelf,
}

impl Model for SureFeed {
    ghost use Rattle.std.specs.Prelude.{List};
    ghost use Rattle.mt_io.specs.Tables.{Shelved};

    ghost Value = { List Shelved };

    ghost view = { λ s. s.shelf };
}

impl SureFeed {
    /// A feed without tables.
    pub fn build(alloc: Global) -> SureFeed
        ensures { result ≡ [] }
    {
        SureFeed {
            shelf: Shelf::build(alloc),
        }
    }

    /// Makes `bytes` the table of this folder and name. `OutOfMemory` where there is no memory;
    /// then nothing changes.
    pub fn add(&mut self, folder: &str, name: &str, bytes: Vec<u8>) -> Result<(), OutOfMemory>
        ensures ok { OnOk result (self.new ≡ (folder.now, name.now, bytes.items) ∷ self.old) }
        ensures err { OnErr result (self.new ≡ self.old) }
    {
        self.shelf.add(folder, name, bytes)
    }
}

impl Feed for SureFeed {
    ghost tables = { λ s. Some (table_in s) };

    ghost faults = { λ _. no_faults };

    fn table(&mut self, folder: &str, name: &str) -> Result<Option<Vec<u8>>, FeedFault>
        ensures bytes { IfOk result (λ table.
            table_in self.old folder.now name.now ≡ option_map (λ v. v.items) table) }
        ensures small { IfOk result (λ table. IfSome table (λ v. length v.items ≤ 268435456)) }
        ensures long { IsErrOf result FeedFault.TooLong
            → IsTooLong (table_in self.old folder.now name.now) }
        ensures never { IsErrOf result FeedFault.Failed → ⊥ }
        ensures same { self.new ≡ self.old }
    {
        self.shelf.copy_of(folder, name)
    }
}
