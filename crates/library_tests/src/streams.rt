//! The source over readers and the sink over writers that give, take and fail in their own ways.

ghost use Rattle.std.specs.Prelude.{◌≤◌};

use crate::objects::{ends, gives_line, put_all, write_front};
use mt_io::{Failed, LineReader, Next, Sink, Source, StdSink, StdSource};
use std::alloc::Global;
use std::io;
use std::io::{ErrorKind, Read, Write};
use std::test::Fail;

// A writer that takes one byte a call.
#[derive(Drop)]
struct OneByteWriter {
    taken: Vec<u8>,
}

impl Write for OneByteWriter {
    fn write(&mut self, buf: &[u8]) -> io::Result<usize> {
        let count = buf.len().min(1);
        self.taken.extend_from_slice(&buf[..count])?;
        Ok(count)
    }

    fn flush(&mut self) -> io::Result<()> {
        Ok(())
    }
}

// Whether a sink over this writer takes three pieces one after another.
fn puts_three_pieces(writer: &mut OneByteWriter) -> bool {
    let mut sink = StdSink::build(writer);
    for piece in ["abba", "", "c\n"] {
        if put_all(&mut sink, piece.as_bytes()).is_err() {
            return false;
        }
    }
    true
}

#[test]
fn short_writes_go_on_until_all_is_written(rt: HostRuntime) {
    let mut writer = OneByteWriter {
        taken: Vec::new(rt.alloc()),
    };
    assert!(rt; puts_three_pieces(&mut writer));
    assert_eq!(rt; writer.taken.as_slice(), b"abbac\n".as_slice());
}

// A writer that holds what it takes, at most three bytes a call, until it is flushed. While it
// holds anything it fails, so a write must have been flushed before the next one.
#[derive(Drop)]
struct HoldingWriter {
    held: Vec<u8>,
    sent: Vec<u8>,
}

impl Write for HoldingWriter {
    fn write(&mut self, buf: &[u8]) -> io::Result<usize> {
        if !self.held.is_empty() {
            return Err(io::Error::from(ErrorKind::WouldBlock));
        }
        let count = buf.len().min(3);
        self.held.extend_from_slice(&buf[..count])?;
        Ok(count)
    }

    fn flush(&mut self) -> io::Result<()> {
        self.sent.append(&mut self.held)?;
        Ok(())
    }
}

// Whether two writes and a `put` are taken by a sink over this writer, three bytes at a time.
fn takes_three_at_a_time(writer: &mut HoldingWriter) -> bool {
    let mut sink = StdSink::build(writer);
    let first = write_front(&mut sink, b"ab") == Ok(2);
    let second = write_front(&mut sink, b"cdef") == Ok(3);
    first && second && put_all(&mut sink, b"fghijkl").is_ok()
}

#[test]
fn each_write_is_flushed(rt: HostRuntime) {
    let mut writer = HoldingWriter {
        held: Vec::new(rt.alloc()),
        sent: Vec::new(rt.alloc()),
    };
    assert!(rt; takes_three_at_a_time(&mut writer));
    assert_eq!(rt; writer.sent.as_slice(), b"abcdefghijkl".as_slice());
    assert!(rt; writer.held.is_empty());
}

// A writer that takes two bytes in its first call and none later. `end` says how it fails.
#[derive(Drop)]
struct EndingWriter {
    end: WritersEnd,
    taken: Vec<u8>,
    calls: u64,
}

#[derive(Clone, Copy, Debug, PartialEq, Eq)]
enum WritersEnd {
    TakesNothing,
    FailsToWrite,
    FailsToFlush,
}

impl Write for EndingWriter {
    fn write(&mut self, buf: &[u8]) -> io::Result<usize> {
        self.calls = self.calls.saturating_add(1);
        if self.calls == 1 {
            let count = buf.len().min(2);
            self.taken.extend_from_slice(&buf[..count])?;
            return Ok(count);
        }
        if self.end == WritersEnd::FailsToWrite {
            return Err(io::Error::from(ErrorKind::BrokenPipe));
        }
        Ok(0)
    }

    fn flush(&mut self) -> io::Result<()> {
        if self.end == WritersEnd::FailsToFlush {
            return Err(io::Error::from(ErrorKind::BrokenPipe));
        }
        Ok(())
    }
}

fn ending_writer(alloc: Global, end: WritersEnd) -> EndingWriter {
    EndingWriter {
        end,
        taken: Vec::new(alloc),
        calls: 0,
    }
}

// Whether a `put` and a write behind it fail at a sink over this writer.
fn both_fail(writer: &mut EndingWriter) -> bool {
    let mut sink = StdSink::build(writer);
    let put_failed = put_all(&mut sink, b"abcd") == Err(Failed);
    put_failed && write_front(&mut sink, b"e") == Err(Failed)
}

#[test]
fn a_write_that_takes_nothing_or_fails_is_not_tried_again(rt: HostRuntime) {
    for end in [WritersEnd::TakesNothing, WritersEnd::FailsToWrite] {
        let mut writer = ending_writer(rt.alloc(), end);
        assert!(rt; both_fail(&mut writer), "{end:?}");
        let seen = (writer.taken.as_slice(), writer.calls);
        assert_eq!(rt; seen, (b"ab".as_slice(), 3), "{end:?}");
    }
}

// What a write of a byte and one of nothing behind it answer.
fn write_byte_and_nothing(writer: &mut EndingWriter) -> [Result<usize, Failed>; 2] {
    let mut sink = StdSink::build(writer);
    [write_front(&mut sink, b"a"), write_front(&mut sink, b"")]
}

#[test]
fn a_write_of_nothing_may_take_nothing(rt: HostRuntime) {
    let mut writer = ending_writer(rt.alloc(), WritersEnd::TakesNothing);
    assert_eq!(rt; write_byte_and_nothing(&mut writer), [Ok(1), Ok(0)]);
}

#[test]
fn a_flush_that_fails_is_a_fault(rt: HostRuntime) {
    let mut writer = ending_writer(rt.alloc(), WritersEnd::FailsToFlush);
    let answer = put_all(&mut StdSink::build(&mut writer), b"abcd");
    assert_eq!(rt; (answer, writer.calls), (Err(Failed), 1));
}

// A reader that gives its bytes one a call. At byte `fault_at` it fails once.
#[derive(Drop)]
struct FaultyReader {
    bytes: Vec<u8>,
    at: usize,
    fault_at: Option<usize>,
}

impl Read for FaultyReader {
    fn read(&mut self, buf: &mut [u8]) -> io::Result<usize> {
        if self.fault_at == Some(self.at) {
            self.fault_at = None;
            return Err(io::Error::from(ErrorKind::BrokenPipe));
        }
        match (self.bytes.get(self.at), buf.first_mut()) {
            (Some(byte), Some(place)) => {
                *place = *byte;
                self.at = self.at.saturating_add(1);
                Ok(1)
            }
            _ => Ok(0),
        }
    }
}

// A source of the lines `ab` and `c`, which fails once where that many bytes are read.
fn faulty_source(alloc: Global, fault_at: usize) -> io::Result<StdSource<FaultyReader>> {
    Ok(StdSource::build(FaultyReader {
        bytes: Vec::from_slice(alloc, b"ab\nc")?,
        at: 0,
        fault_at: Some(fault_at),
    }))
}

// What a read into the buffer answers, from this place on.
fn read_behind<S: Source>(source: &mut S, buf: &mut [u8; 4], from: usize) -> Result<usize, Failed>
    requires { from ≤ 4 }
{
    source.read(&mut buf[from..])
}

#[test]
fn a_read_that_fails_loses_nothing(rt: HostRuntime) -> Result<(), Fail> {
    let mut source = faulty_source(rt.alloc(), 2)?;
    let mut buf = *b"....";
    for (from, answer, held) in [
        (0, Ok(1), b"a..."),
        (1, Ok(1), b"ab.."),
        (2, Err(Failed), b"ab.."),
        (2, Ok(1), b"ab\n."),
        (3, Ok(1), b"ab\nc"),
        (0, Ok(0), b"ab\nc"),
        (0, Ok(0), b"ab\nc"),
    ] {
        let found = read_behind(&mut source, &mut buf, from);
        assert_eq!(rt; (found, buf), (answer, *held), "from {from}");
    }
    Ok(())
}

// Whether the next answer is that the source failed.
fn read_fails<S: Source>(reader: &mut LineReader, source: &mut S) -> bool {
    matches!(reader.next(source), Next::ReadFault)
}

// Whether the first line and one fault come, the fault as the first or as the second answer.
fn gives_line_and_fault<S: Source>(
    reader: &mut LineReader,
    source: &mut S,
    fault_is_first: bool,
) -> bool {
    if fault_is_first {
        read_fails(reader, source) && gives_line(reader, source, "ab")
    } else {
        gives_line(reader, source, "ab") && read_fails(reader, source)
    }
}

#[test]
fn lines_come_whole_where_a_read_fails(rt: HostRuntime) -> Result<(), Fail> {
    for (fault_at, fault_is_first) in [(0, true), (2, true), (3, false), (4, false)] {
        let mut source = faulty_source(rt.alloc(), fault_at)?;
        let mut reader = LineReader::build(rt.alloc(), 10)?;
        let came = gives_line_and_fault(&mut reader, &mut source, fault_is_first);
        let ended = gives_line(&mut reader, &mut source, "c") && ends(&mut reader, &mut source);
        assert!(rt; came && ended, "fault at {fault_at}");
    }
    Ok(())
}
