//! The adapters of the operating system: a source over any reader, a sink over any writer, and a
//! feed over the folders of the file system. The sink and the feed tell nothing of content, and a
//! source what the reader below it tells. Each raises its count at each fault.
ghost use Rattle.std.specs.Prelude.{◌≡◌, ◌≢◌, ◌<◌, ◌≤◌, Err, IfOk, None, Ok, Some, length, take};
ghost use Rattle.std.specs.Io.{WritesAtMost};
ghost use Rattle.std.specs.Io.KnownBytes.{Appends};
ghost use Rattle.mt_io.specs.Causes.{failed_times};

use crate::shelf::LONGEST;
use crate::traits::{Failed, Feed, FeedFault, Sink, Source};
use std::alloc::Global;
use std::io::{ErrorKind, Read, Write};
use std::rt::Files;
use std::{fs, io};

/// A source over any reader, as standard input.
#[derive(Drop)]
pub struct StdSource<R> {
    inner: R,
    faults: u64,
}

impl<R: Read> StdSource<R> {
    /// A source over this reader.
    pub fn build(inner: R) -> StdSource<R>
        ensures { ⟦<StdSource<R> as Source>⟧.faults result ≡ failed_times 0 }
    {
        StdSource { inner, faults: 0 }
    }
}

impl<R: Read> Source for StdSource<R> {
    ghost left = { λ s. R.remaining s.inner };

    ghost faults = { λ s. failed_times s.faults };

    fn read(&mut self, buf: &mut [u8]) -> Result<usize, Failed> {
        match self.inner.read(buf) {
            Ok(count) => Ok(count),
            Err(_) => {
                self.faults = self.faults.saturating_add(1);
                Err(Failed)
            }
        }
    }
}

/// A sink over any writer, as standard output: what it takes is flushed. A write that takes
/// nothing is a fault.
#[derive(Drop)]
pub struct StdSink<W> {
    inner: W,
    faults: u64,
}

impl<W: Write> StdSink<W> {
    /// A sink over this writer.
    pub fn build(inner: W) -> StdSink<W>
        ensures { ⟦<StdSink<W> as Sink>⟧.faults result ≡ failed_times 0 }
    {
        StdSink { inner, faults: 0 }
    }
}

impl<W: Write> Sink for StdSink<W> {
    ghost written = { λ _. None };

    ghost faults = { λ s. failed_times s.faults };

    fn write(&mut self, bytes: &[u8]) -> Result<usize, Failed> {
        let result = write_front(&mut self.inner, bytes);
        if result.is_err() {
            self.faults = self.faults.saturating_add(1);
        }
        result
    }
}

/// Writes a front of `bytes`, of at least one byte where there is one, and flushes it. `Failed`
/// where the writer takes nothing or fails.
fn write_front<W: Write>(writer: &mut W, bytes: &[u8]) -> Result<usize, Failed>
    ensures bound { WritesAtMost result bytes.now }
    ensures bytes { IfOk result (λ n. Appends (W.contents writer.old) (W.contents writer.new)
        (take n bytes.now)) }
    ensures progress { IfOk result (λ n. 0 < length bytes.now → 0 < n) }
{
    match writer.write(bytes) {
        Ok(count) if count > 0 || bytes.is_empty() => match writer.flush() {
            Ok(()) => Ok(count),
            Err(_) => Err(Failed),
        },
        _ => Err(Failed),
    }
}

/// The tables in folders: `folder/name` is the file. One that is not there is None.
#[derive(Drop)]
pub struct FolderFeed<R> {
    rt: R,
    alloc: Global,
    faults: u64,
}

impl<R: Files> FolderFeed<R> {
    /// A feed over the file system.
    pub fn build(rt: R, alloc: Global) -> FolderFeed<R>
        ensures { ⟦<FolderFeed<R> as Feed>⟧.faults result ≡ failed_times 0 }
    {
        FolderFeed {
            rt,
            alloc,
            faults: 0,
        }
    }
}

impl<R: Files> FolderFeed<R> {
    // The bytes of a file, or a front of one that is too long.
    fn front(&self, folder: &str, name: &str) -> io::Result<Vec<u8>> {
        let path = format!(in self.alloc; "{folder}/{name}")?;
        let mut file = fs::open(&self.rt, path.as_str())?.take(LONGEST as u64 + 1);
        let mut bytes = Vec::new(self.alloc);
        file.read_to_end(&mut bytes)?;
        Ok(bytes)
    }
}

impl<R: Files> Feed for FolderFeed<R> {
    ghost tables = { λ _. None };

    ghost faults = { λ s. failed_times s.faults };

    fn table(&mut self, folder: &str, name: &str) -> Result<Option<Vec<u8>>, FeedFault> {
        let result = match self.front(folder, name) {
            Ok(bytes) => table_of(bytes),
            Err(e) => table_without(e.kind()),
        };
        if let Err(FeedFault::Failed) = &result {
            self.faults = self.faults.saturating_add(1);
        }
        result
    }
}

/// The table that these bytes are, of a file or of a front of it that is too long for a table.
fn table_of(bytes: Vec<u8>) -> Result<Option<Vec<u8>>, FeedFault>
    ensures table { length bytes.items ≤ 268435456 → result ≡ Ok (Some bytes) }
    ensures long { 268435456 < length bytes.items → result ≡ Err FeedFault.TooLong }
{
    if bytes.len() > LONGEST {
        return Err(FeedFault::TooLong);
    }
    Ok(Some(bytes))
}

/// What a file that could not be read comes to: no table only where there is no such file.
fn table_without(kind: ErrorKind) -> Result<Option<Vec<u8>>, FeedFault>
    ensures absent { kind ≡ ErrorKind.NotFound → result ≡ Ok None }
    ensures memory { kind ≡ ErrorKind.OutOfMemory → result ≡ Err FeedFault.OutOfMemory }
    ensures failed { kind ≢ ErrorKind.NotFound → kind ≢ ErrorKind.OutOfMemory
        → result ≡ Err FeedFault.Failed }
{
    match kind {
        ErrorKind::NotFound => Ok(None),
        ErrorKind::OutOfMemory => Err(FeedFault::OutOfMemory),
        _ => Err(FeedFault::Failed),
    }
}
