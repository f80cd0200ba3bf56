//! The lines of a window.

ghost use Rattle.std.specs.Prelude.{◌≡◌, ◌<◌, ◌≤◌, ◌^◌, ◌++◌, ◌∷◌, [], All, IfOk, length, nat_eq};
ghost use Rattle.delay_model.specs.Windows.{lines_per_window};
ghost use Rattle.information_service.specs.Lines.{said_by};
ghost use Rattle.mt_io.specs.Lines.{short};
ghost use Rattle.query_crew.specs.WindowLines.{window_line, IsWindowLine};

use crate::window_line::{WindowLine, read_window_line};
use message_reader::LineRoom;
use mt_base::memory::OutOfMemory;
use schedule_build::Directory;
use std::alloc::Global;
use std::marker::Model;

/// How many lines a window has at most.
pub const LINES_PER_WINDOW: usize = 256;

/// The lines of a window, of which there are at most 256. Each message is one that was read. It is
/// seen as the list of these lines. Its room is taken when it is made.
#[derive(Drop)]
pub struct Window {
    lines: Vec<WindowLine>,
    room: LineRoom,
}

impl Model for Window {
    ghost use Rattle.std.specs.Prelude.{List};
    ghost use Rattle.query_crew.specs.declared.window_line.WindowLine.{WindowLine};

    ghost Value = { List WindowLine };

    ghost use Rattle.query_crew.specs.Inside.{IsConsistent};

    ghost view = { λ w. w.lines.items };

    ghost invariant = { IsConsistent };
}

impl Window {
    /// A window without lines. Room for all lines that it can have is taken here. `OutOfMemory`
    /// where there is no memory.
    pub fn build(alloc: Global) -> Result<Window, OutOfMemory>
        ensures { IfOk result (λ w. w ≡ []) }
    {
        Ok(Window {
            lines: Vec::with_capacity(alloc, LINES_PER_WINDOW)?,
            room: LineRoom::build(alloc)?,
        })
    }

    /// Its lines in the order of the input.
    pub fn lines(&self) -> &[WindowLine]
        ensures lines { result.now ≡ self.now }
        ensures few { length self.now ≤ lines_per_window }
        ensures kept { All IsWindowLine self.now }
    {
        self.lines.as_slice()
    }

    /// Whether it has all lines that it can have.
    pub(crate) fn is_full(&self) -> bool
        ensures { result ≡ nat_eq (length self.now) lines_per_window }
    {
        self.lines.len() == LINES_PER_WINDOW
    }

    /// What a line of the input, without its line end and of fewer than 2^31 bytes, says in a
    /// window. It is not put in. The names of a query are looked up in the directory. `OutOfMemory`
    /// where there is no memory.
    pub(crate) fn read_line(
        &mut self,
        alloc: Global,
        directory: &Directory,
        line: &[u8],
    ) -> Result<WindowLine, OutOfMemory>
        requires few { length line.now < 2 ^ 31 }
        ensures said { IfOk result (λ w. w ≡ window_line directory.now (said_by (short line.now))) }
        ensures kept { IfOk result IsWindowLine }
        ensures unchanged { self.new ≡ self.old }
    {
        read_window_line(alloc, directory, &mut self.room, line)
    }

    /// Takes all lines out.
    pub(crate) fn clear(&mut self)
        ensures { self.new ≡ [] }
    {
        self.lines.clear();
    }

    /// Puts a line behind the others. It takes no memory.
    pub(crate) fn push(&mut self, line: WindowLine)
        requires room { length self.old < lines_per_window }
        requires kept { IsWindowLine line }
        ensures { self.new ≡ self.old ++ line ∷ [] }
    {
        let _ = self.lines.push(line);
    }
}

/// Lines of a window, with their place in the input.
#[derive(Clone, Copy)]
pub struct NumberedLines<'a> {
    /// The lines, in the order of the input.
    pub lines: &'a [WindowLine],

    /// How many lines of the input stand before them.
    pub first: u64,
}
