//! A timetable with its names, ready for lines.

ghost use Rattle.std.specs.Prelude.{◌≡◌, ◌<◌, ◌^◌, IfOk, length};
ghost use Rattle.message_reader.specs.Errors.{Gives, bad_in};
ghost use Rattle.message_reader.specs.Lines.{line_of};
ghost use Rattle.message_reader.specs.Wires.{IsLine};
ghost use Rattle.schedule_build.specs.InStep.{AreInStep};

use conn_scan::Scratch;
use message_reader::{Line, LineError, LineRoom, read_line};
use mt_base::memory::OutOfMemory;
use schedule_build::Directory;
use std::alloc::Global;
use std::marker::Model;
use timetable::Timetable;

/// A timetable with the names of its trains and stops, and room for lines and for the answers to
/// queries. Each train has a name of its own. It is seen as its network, its state, the number of
/// accepted messages and its names.
#[derive(Drop)]
pub struct InformationService {
    pub(crate) timetable: Timetable,
    pub(crate) directory: Directory,
    pub(crate) scratch: Scratch,
    pub(crate) room: LineRoom,
}

impl Model for InformationService {
    ghost use Rattle.information_service.specs.ServiceState.{ServiceState, service_state_code};

    ghost Value = { ServiceState };

    ghost coded = { service_state_code };

    ghost use Rattle.information_service.specs.Seen.{seen, IsReady};

    ghost view = { seen };

    ghost invariant = { IsReady };
}

/// Room for queries, and for lines. `OutOfMemory` where there is no memory.
fn rooms(alloc: Global, stops: u32, numbers: u32) -> Result<(Scratch, LineRoom), OutOfMemory>
    ensures { IfOk result (λ rooms. rooms.0.room
        ≡ record { stops = stops; numbers = numbers }) }
{
    let scratch = Scratch::build(alloc, stops, numbers)?;
    Ok((scratch, LineRoom::build(alloc)?))
}

impl InformationService {
    /// A timetable with its names. `OutOfMemory` where there is no memory.
    pub fn build(
        alloc: Global,
        timetable: Timetable,
        directory: Directory,
    ) -> Result<InformationService, OutOfMemory>
        requires in_step { AreInStep directory timetable.state }
        ensures { IfOk result (λ s. s ≡ record {
          network = timetable.network;
          state = timetable.state;
          count = timetable.count;
          names = directory;
        }) }
    {
        let stops = timetable.graph().changes().stops();
        let (scratch, room) = rooms(alloc, stops, timetable.numbers())?;
        Ok(InformationService {
            timetable,
            directory,
            scratch,
            room,
        })
    }

    /// What a line says, or the first fault that holds, as `message_reader` reads it.
    pub fn read_line(&mut self, alloc: Global, bytes: &[u8]) -> Result<Line, LineError>
        requires few { length bytes.now < 2 ^ 31 }
        ensures exact { Gives bad_in result (line_of bytes.now) }
        ensures kept { IfOk result IsLine }
        ensures unchanged { self.new ≡ self.old }
    {
        read_line(alloc, &mut self.room, bytes)
    }
}
