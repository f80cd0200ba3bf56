//! The windows of an input, one after another.

ghost use Rattle.std.specs.Prelude.{◌≡◌, List, IfErr, IfOk, Some, true};
ghost use Rattle.information_service.specs.Causes.{reads_failed};
ghost use Rattle.mt_io.specs.Lines.{Line};
ghost use Rattle.mt_io.specs.Reader.{GivesNext};
ghost use Rattle.query_crew.specs.Reading.{IsNextLine, StopsAt, IsReadWindow, StopsWindow};

use crate::window::Window;
use crate::window_line::WindowLine;
use information_service::LinesFault;
use message_reader::BadLine;
use mt_io::{LineReader, Next, Source};
use schedule_build::Directory;
use std::alloc::Global;

/// How a window ends.
#[derive(Clone, Copy, Debug, PartialEq, Eq)]
pub enum WindowEnd {
    /// With a flush, or with the last line that it can have.
    More,
    /// Behind the last line of the input. The window may have no line.
    End,
}

/// The next line of the input, as a window has it, or none where the input is at its end. The names
/// of a query are looked up in the directory. It fails as `read_window` does; where there is no
/// memory the line is lost.
fn next_line<S: Source>(
    alloc: Global,
    reader: &mut LineReader,
    input: &mut S,
    directory: &Directory,
    window: &mut Window,
) -> Result<Option<WindowLine>, LinesFault>
    ensures taken { (lines : List Line)
        × GivesNext reader.old reader.new (S.left input.old) (S.left input.new) lines
        × IfOk result (λ next. IsNextLine directory.now next lines reader.old reader.new)
        × IfErr result (λ fault. StopsAt fault lines reader.new) }
    ensures reads { Some (S.faults input.new) ≡ reads_failed result (S.faults input.old) }
    ensures ended { reader.old.ended ≡ true → input.new ≡ input.old }
    ensures unchanged { window.new ≡ window.old }
{
    match reader.next(input) {
        Next::Line(line) => Ok(Some(window.read_line(alloc, directory, line)?)),
        Next::LongLine => Ok(Some(WindowLine::Bad(BadLine::Long))),
        Next::End => Ok(None),
        Next::ReadFault => Err(LinesFault::ReadFault),
        Next::Budget => Err(LinesFault::TooLong),
    }
}

/// Fills the window with the next window of the input: its lines up to the first flush, or up to
/// the 256th line, or up to the end of the input. The window is emptied first. The names of a query
/// are looked up in the directory. It fails with `ReadFault` where a read of the input failed: the
/// next call of the reader reads on. It fails with `TooLong` where as many bytes of the input as
/// may be were taken, no end was read, and no whole line is left. It fails with `OutOfMemory` where
/// there is no memory; then the line that was taken last is lost.
pub fn read_window<S: Source>(
    alloc: Global,
    reader: &mut LineReader,
    input: &mut S,
    directory: &Directory,
    window: &mut Window,
) -> Result<WindowEnd, LinesFault>
    // the lines that were taken from the input, and how they are a window
    ensures taken { (lines : List Line)
        × GivesNext reader.old reader.new (S.left input.old) (S.left input.new) lines
        × IfOk result (λ end. IsReadWindow directory.now end lines window.new reader.old
        reader.new)
        × IfErr result (λ fault. StopsWindow directory.now fault lines window.new reader.new) }

    // how many reads failed, and when the input is not read
    ensures reads { Some (S.faults input.new) ≡ reads_failed result (S.faults input.old) }
    ensures ended { reader.old.ended ≡ true → input.new ≡ input.old }
{
    window.clear();
    'lines: while !window.is_full() {
        let Some(line) = next_line(alloc, reader, input, directory, window)? else {
            return Ok(WindowEnd::End);
        };
        let ends = line.is_flush();
        window.push(line);
        if ends {
            return Ok(WindowEnd::More);
        }
    }
    Ok(WindowEnd::More)
}
