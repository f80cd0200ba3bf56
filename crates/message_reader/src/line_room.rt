//! Room for reading lines.

ghost use Rattle.std.specs.Prelude.{◌<◌, ◌^◌, IfOk, IfSome, length};
ghost use Rattle.message_reader.specs.Errors.{Gives, bad_in};
ghost use Rattle.message_reader.specs.Lines.{line_of_text};
ghost use Rattle.message_reader.specs.Wires.{IsLine};

use crate::bad_line::LineError;
use crate::flat::read_flat;
use crate::lines::said_by;
use crate::wire::Line;
use json::Scratch;
use mt_base::memory::OutOfMemory;
use std::alloc::Global;
use std::marker::Model;

/// Room for reading lines, which is kept from line to line. What was read before shows nowhere, so
/// it is seen as nothing.
#[derive(Drop)]
pub struct LineRoom {
    scratch: Box<Scratch>,
}

impl Model for LineRoom {
    ghost Value = { Unit {0} };

    ghost view = { λ _. tt };
}

impl LineRoom {
    /// Room for lines. `OutOfMemory` where there is no memory.
    pub fn build(alloc: Global) -> Result<LineRoom, OutOfMemory> {
        Ok(LineRoom {
            scratch: Box::new(alloc, Scratch::new(alloc))?,
        })
    }

    /// What a text says, if it is an object without lists and objects in it that has no member that
    /// no line needs. None for any other text, and where there is no room to read it.
    pub(crate) fn read_flat_line(
        &mut self,
        alloc: Global,
        text: &str,
    ) -> Option<Result<Line, LineError>>
        requires few { length text.now < 2 ^ 31 }
        ensures exact { IfSome result (λ line. Gives bad_in line (line_of_text text.now)) }
        ensures kept { IfSome result (λ line. IfOk line IsLine) }
    {
        let object = read_flat(text, &mut self.scratch)?;
        Some(said_by(alloc, &object))
    }
}
