//! Lines read from objects, the objects in memory, and the adapters over real files.

ghost use Rattle.std.specs.Prelude.{◌≤◌, Some};
ghost use Rattle.mt_io.specs.Causes.{no_faults};

use mt_io::{
    Failed, Feed, FeedFault, FolderFeed, LineReader, MemFeed, MemSink, MemSource, Next, Sink,
    Source, StdSink, StdSource, SureFeed, SureSink, SureSource, put,
};
use std::alloc::{AllocError, Global};
use std::test::Fail;
use std::{fs, io};

// Whether the next answer is this line.
pub(crate) fn gives_line<S: Source>(reader: &mut LineReader, source: &mut S, want: &str) -> bool {
    match reader.next(source) {
        Next::Line(line) => line == want.as_bytes(),
        _ => false,
    }
}

// Whether the next answer is that a long line begins.
fn is_long<S: Source>(reader: &mut LineReader, source: &mut S) -> bool {
    matches!(reader.next(source), Next::LongLine)
}

// Whether the next answer is that all bytes were taken that may be.
fn is_spent<S: Source>(reader: &mut LineReader, source: &mut S) -> bool {
    matches!(reader.next(source), Next::Budget)
}

// Whether the next answer is the end.
pub(crate) fn ends<S: Source>(reader: &mut LineReader, source: &mut S) -> bool {
    matches!(reader.next(source), Next::End)
}

// What `put` answers.
pub(crate) fn put_all<K: Sink>(sink: &mut K, bytes: &[u8]) -> Result<(), Failed> {
    put(sink, bytes)
}

// What a write answers.
pub(crate) fn write_front<K: Sink>(sink: &mut K, bytes: &[u8]) -> Result<usize, Failed> {
    sink.write(bytes)
}

// Whether the feed gives this table, of these bytes.
pub(crate) fn gives_table<F: Feed>(feed: &mut F, folder: &str, name: &str, want: &[u8]) -> bool {
    match feed.table(folder, name) {
        Ok(Some(found)) => found.as_slice() == want,
        _ => false,
    }
}

// Whether there is a table, or why it was not given.
pub(crate) fn is_there<F: Feed>(feed: &mut F, folder: &str, name: &str) -> Result<bool, FeedFault> {
    Ok(feed.table(folder, name)?.is_some())
}

// A source of four lines, of which a read gives at most `piece` bytes, and the second one fails.
fn four_lines(alloc: Global, piece: usize) -> Result<MemSource, AllocError>
    requires { 1 ≤ piece }
{
    let bytes = Vec::from_slice(alloc, b"ab\n\ncde\nf")?;
    Ok(MemSource::build(bytes, piece, vec![in alloc; 1]?))
}

// How many calls it takes until the reader answers this line: one, two, or 0 where neither does.
fn calls_for_line(reader: &mut LineReader, source: &mut MemSource, want: &str) -> u64 {
    if gives_line(reader, source, want) {
        return 1;
    }
    if gives_line(reader, source, want) {
        return 2;
    }
    0
}

// Whether the four lines come, with at most one other answer among them.
fn gives_four_lines(reader: &mut LineReader, source: &mut MemSource) -> bool {
    let mut failed = false;
    for want in ["ab", "", "cde", "f"] {
        match calls_for_line(reader, source, want) {
            1 => {}
            2 if !failed => failed = true,
            _ => return false,
        }
    }
    true
}

#[test]
fn lines_come_whole_whatever_the_pieces(rt: HostRuntime) -> Result<(), Fail> {
    for piece in [1, 2, 3, 100] {
        let mut source = four_lines(rt.alloc(), piece)?;
        let mut reader = LineReader::build(rt.alloc(), 10)?;
        let came = gives_four_lines(&mut reader, &mut source);
        let ended = ends(&mut reader, &mut source) && ends(&mut reader, &mut source);
        assert!(rt; came && ended, "in pieces of {piece}");
    }
    Ok(())
}

// A source that counts its reads.
#[derive(Drop)]
struct CountedSource {
    inner: SureSource,
    reads: u64,
}

impl Source for CountedSource {
    ghost left = { λ s. Some s.inner.left };

    ghost faults = { λ _. no_faults };

    fn read(&mut self, buf: &mut [u8]) -> Result<usize, Failed> {
        self.reads = self.reads.saturating_add(1);
        self.inner.read(buf)
    }
}

// A source of four lines in pieces of four bytes.
fn counted_source(alloc: Global) -> Result<CountedSource, AllocError> {
    let bytes = Vec::from_slice(alloc, b"ab\ncd\ne\nfgh")?;
    Ok(CountedSource {
        inner: SureSource::build(bytes, 4),
        reads: 0,
    })
}

// After how many reads in all this line is there. None where another answer comes.
fn reads_for_line(reader: &mut LineReader, source: &mut CountedSource, want: &str) -> Option<u64> {
    gives_line(reader, source, want).then_some(source.reads)
}

// After how many reads in all the end is there. None where another answer comes.
fn reads_for_end(reader: &mut LineReader, source: &mut CountedSource) -> Option<u64> {
    ends(reader, source).then_some(source.reads)
}

#[test]
fn no_read_behind_a_whole_line(rt: HostRuntime) -> Result<(), Fail> {
    let mut source = counted_source(rt.alloc())?;
    let mut reader = LineReader::build(rt.alloc(), 100)?;
    for (want, reads) in [("ab", 1), ("cd", 2), ("e", 2), ("fgh", 4)] {
        let found = reads_for_line(&mut reader, &mut source, want);
        assert_eq!(rt; found, Some(reads), "reads up to {want}");
    }
    assert_eq!(rt; reads_for_end(&mut reader, &mut source), Some(4));
    Ok(())
}

// A source of a long line and a short one.
fn long_and_short(alloc: Global) -> Result<SureSource, AllocError> {
    let mut bytes = vec![in alloc; 120; 70_000]?;
    bytes.extend_from_slice(b"\nend\n")?;
    Ok(SureSource::build(bytes, 1_000))
}

#[test]
fn a_long_line_is_passed_over(rt: HostRuntime) -> Result<(), Fail> {
    let mut source = long_and_short(rt.alloc())?;
    let mut reader = LineReader::build(rt.alloc(), 70_005)?;
    let long = is_long(&mut reader, &mut source);
    let end = gives_line(&mut reader, &mut source, "end");
    let spent = is_spent(&mut reader, &mut source);
    assert_eq!(rt; (long, end, spent), (true, true, true));
    Ok(())
}

// Whether a sink with room for three bytes takes three of four, and fails then and later.
fn a_sink_takes_three(alloc: Global) -> Result<bool, AllocError> {
    let mut sink = MemSink::build(alloc, 3, vec![in alloc; 0]?)?;
    let failed = put_all(&mut sink, b"abcd").is_err() && put_all(&mut sink, b"abcd").is_err();
    Ok(failed && sink.bytes() == b"abc".as_slice())
}

// Whether a sink with room for one byte takes it, and no other.
fn a_sink_takes_its_last_byte(alloc: Global) -> Result<bool, AllocError> {
    let mut sink = MemSink::build(alloc, 1, Vec::new(alloc))?;
    let taken = put_all(&mut sink, b"a").is_ok() && put_all(&mut sink, b"b").is_err();
    Ok(taken && sink.bytes() == b"a".as_slice())
}

#[test]
fn bytes_in_memory(rt: HostRuntime) -> Result<(), Fail> {
    assert!(rt; a_sink_takes_three(rt.alloc())?);
    assert!(rt; a_sink_takes_its_last_byte(rt.alloc())?);
    assert_eq!(rt; put_all(&mut SureSink::build(), b"abcd"), Ok(()));
    Ok(())
}

// Makes these bytes a table of the feed.
fn add_table(alloc: Global, feed: &mut MemFeed, bytes: &[u8]) -> Result<(), AllocError> {
    feed.add("f", "t", Vec::from_slice(alloc, bytes)?)
}

#[test]
fn tables_in_memory(rt: HostRuntime) -> Result<(), Fail> {
    let mut feed = MemFeed::build(rt.alloc(), vec![in rt.alloc(); 1]?);
    add_table(rt.alloc(), &mut feed, b"old")?;
    add_table(rt.alloc(), &mut feed, b"new")?;
    assert!(rt; gives_table(&mut feed, "f", "t", b"new"));
    assert_eq!(rt; is_there(&mut feed, "f", "t"), Err(FeedFault::Failed));
    assert_eq!(rt; is_there(&mut feed, "f", "u"), Ok(false));
    Ok(())
}

#[test]
fn a_table_in_memory_that_never_fails(rt: HostRuntime) -> Result<(), Fail> {
    let mut feed = SureFeed::build(rt.alloc());
    feed.add("f", "t", Vec::from_slice(rt.alloc(), b"one")?)?;
    assert!(rt; gives_table(&mut feed, "f", "t", b"one"));
    Ok(())
}

// Whether a feed over the file system gives the table that is there, none where the file or the
// folder is not there, and a fault at a folder.
fn folder_answers(rt: HostRuntime) -> [bool; 4] {
    let mut feed = FolderFeed::build(rt, rt.alloc());
    [
        gives_table(&mut feed, "feed_of_a_test", "stops.txt", b"stop_id\n"),
        is_there(&mut feed, "feed_of_a_test", "trips.txt") == Ok(false),
        is_there(&mut feed, "no_such_folder", "stops.txt") == Ok(false),
        is_there(&mut feed, ".", "feed_of_a_test") == Err(FeedFault::Failed),
    ]
}

#[test]
fn a_real_folder(rt: HostRuntime) -> Result<(), Fail> {
    fs::create_dir(&rt, "feed_of_a_test")?;
    fs::write(&rt, "feed_of_a_test/stops.txt", "stop_id\n")?;
    let answers = folder_answers(rt);
    fs::remove_dir_all(&rt, "feed_of_a_test")?;
    assert_eq!(rt; answers, [true; 4]);
    Ok(())
}

// What a sink answers that writes a new file.
fn write_file(rt: HostRuntime) -> io::Result<Result<(), Failed>> {
    let mut sink = StdSink::build(fs::create(&rt, "file_of_a_test")?);
    Ok(put_all(&mut sink, b"ab\nc"))
}

// What a source answers over a file that is open for writing alone.
fn read_unreadable(rt: HostRuntime) -> io::Result<Result<usize, Failed>> {
    let mut source = StdSource::build(fs::create(&rt, "other_of_a_test")?);
    Ok(source.read(&mut [0; 4]))
}

// What a sink answers over a file that is open for reading alone.
fn write_unwritable(rt: HostRuntime) -> io::Result<Result<usize, Failed>> {
    let mut sink = StdSink::build(fs::open(&rt, "file_of_a_test")?);
    Ok(write_front(&mut sink, b"x"))
}

// Whether a file is read line by line.
fn reads_back(rt: HostRuntime) -> io::Result<bool> {
    let mut source = StdSource::build(fs::open(&rt, "file_of_a_test")?);
    let mut reader = LineReader::build(rt.alloc(), 100)?;
    let first = gives_line(&mut reader, &mut source, "ab");
    let second = gives_line(&mut reader, &mut source, "c");
    Ok(first && second && ends(&mut reader, &mut source))
}

#[test]
fn real_readers_and_writers(rt: HostRuntime) -> Result<(), Fail> {
    let written = write_file(rt)?;
    let unreadable = read_unreadable(rt)?;
    let unwritable = write_unwritable(rt)?;
    let is_read = reads_back(rt)?;
    fs::remove_file(&rt, "file_of_a_test")?;
    fs::remove_file(&rt, "other_of_a_test")?;
    assert_eq!(rt; (written, is_read), (Ok(()), true));
    assert_eq!(rt; (unwritable, unreadable), (Err(Failed), Err(Failed)));
    Ok(())
}

#[test]
fn the_real_output(rt: HostRuntime) {
    let written = put_all(&mut StdSink::build(rt.stdout()), b"written\n");
    assert_eq!(rt; written, Ok(()));
}
