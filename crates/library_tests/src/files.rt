//! The feed over a file system in which opening or reading fails.

use crate::objects::{gives_table, is_there};
use mt_io::{FeedFault, FolderFeed};
use std::alloc::{Allocator, Global};
use std::fs::{Metadata, OpenFile, OpenOptions};
use std::io;
use std::io::{ErrorKind, Read, Seek, SeekFrom, Write};
use std::rt::Files;
use std::test::Fail;

fn unsupported() -> io::Error {
    io::Error::from(ErrorKind::Unsupported)
}

// A file that gives so many bytes `x`, and behind them fails or ends.
#[derive(Drop)]
struct ShortFile {
    left: usize,
    fails: bool,
}

impl Read for ShortFile {
    fn read(&mut self, buf: &mut [u8]) -> io::Result<usize> {
        if self.left == 0 && self.fails {
            return Err(io::Error::from(ErrorKind::TimedOut));
        }
        let count = buf.len().min(self.left);
        buf[..count].fill(b'x');
        self.left -= count;
        Ok(count)
    }
}

impl Write for ShortFile {
    fn write(&mut self, _buf: &[u8]) -> io::Result<usize> {
        Err(unsupported())
    }

    fn flush(&mut self) -> io::Result<()> {
        Err(unsupported())
    }
}

impl Seek for ShortFile {
    fn seek(&mut self, _to: SeekFrom) -> io::Result<u64> {
        Err(unsupported())
    }
}

impl OpenFile for ShortFile {
    fn metadata(&self) -> io::Result<Metadata> {
        Err(unsupported())
    }

    fn set_len(&self, _size: u64) -> io::Result<()> {
        Err(unsupported())
    }

    fn sync_all(&self) -> io::Result<()> {
        Err(unsupported())
    }

    fn sync_data(&self) -> io::Result<()> {
        Err(unsupported())
    }
}

// A file system in which no file can be opened where `refused` says why, and else each is a
// `ShortFile`.
#[derive(Drop)]
struct ShortFiles {
    refused: Option<ErrorKind>,
    len: usize,
    fails: bool,
}

impl Files for ShortFiles {
    type File = ShortFile;

    type Dir = io::Empty;

    fn open_file(&self, _how: &OpenOptions, _path: &str) -> io::Result<ShortFile> {
        match self.refused {
            Some(kind) => Err(io::Error::from(kind)),
            None => Ok(ShortFile {
                left: self.len,
                fails: self.fails,
            }),
        }
    }

    fn open_dir(&self, _path: &str) -> io::Result<io::Empty> {
        Err(unsupported())
    }

    fn metadata(&self, _path: &str) -> io::Result<Metadata> {
        Err(unsupported())
    }

    fn symlink_metadata(&self, _path: &str) -> io::Result<Metadata> {
        Err(unsupported())
    }

    fn copy(&self, _from: &str, _to: &str) -> io::Result<u64> {
        Err(unsupported())
    }

    fn rename(&self, _from: &str, _to: &str) -> io::Result<()> {
        Err(unsupported())
    }

    fn remove_file(&self, _path: &str) -> io::Result<()> {
        Err(unsupported())
    }

    fn create_dir(&self, _path: &str) -> io::Result<()> {
        Err(unsupported())
    }

    fn remove_dir(&self, _path: &str) -> io::Result<()> {
        Err(unsupported())
    }

    fn remove_dir_all<B: Allocator>(&self, _alloc: B, _path: &str) -> io::Result<()> {
        Err(unsupported())
    }
}

// A feed in which no table can be opened, for this cause.
fn refusing_feed(alloc: Global, kind: ErrorKind) -> FolderFeed<ShortFiles> {
    let files = ShortFiles {
        refused: Some(kind),
        len: 0,
        fails: false,
    };
    FolderFeed::build(files, alloc)
}

// A feed in which each table has so many bytes, and a read behind them fails or is at the end.
fn feed_of(alloc: Global, len: usize, fails: bool) -> FolderFeed<ShortFiles> {
    let files = ShortFiles {
        refused: None,
        len,
        fails,
    };
    FolderFeed::build(files, alloc)
}

// Whether there is a table, or why it was not given, where none can be opened for this cause.
fn without_a_file(alloc: Global, kind: ErrorKind) -> Result<bool, FeedFault> {
    is_there(&mut refusing_feed(alloc, kind), "f", "t")
}

#[test]
fn only_a_table_that_is_not_there_is_none(rt: HostRuntime) {
    for (kind, want) in [
        (ErrorKind::NotFound, Ok(false)),
        (ErrorKind::OutOfMemory, Err(FeedFault::OutOfMemory)),
        (ErrorKind::PermissionDenied, Err(FeedFault::Failed)),
        (ErrorKind::NotADirectory, Err(FeedFault::Failed)),
        (ErrorKind::FilesystemLoop, Err(FeedFault::Failed)),
        (ErrorKind::Other, Err(FeedFault::Failed)),
    ] {
        assert_eq!(rt; without_a_file(rt.alloc(), kind), want, "{kind:?}");
    }
}

#[test]
fn a_table_whose_reading_fails_is_not_given_in_part(rt: HostRuntime) {
    let failed = is_there(&mut feed_of(rt.alloc(), 3, true), "f", "t");
    let is_whole = gives_table(&mut feed_of(rt.alloc(), 3, false), "f", "t", b"xxx");
    assert_eq!(rt; (failed, is_whole), (Err(FeedFault::Failed), true));
}
