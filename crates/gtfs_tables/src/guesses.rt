//! Where the ids of the next row of `stop_times.txt` are looked for first.

ghost use Rattle.std.specs.Prelude.{◌≡◌, IfErr};
ghost use Rattle.gtfs_tables.specs.declared.faults.TableError.TheVariants.{OutOfMemory};

use crate::faults::TableError;
use mt_base::numbers::StopNo;
use mt_base::tables::CallRow;
use std::alloc::Global;

/// The trip and the stops that the next row probably names. Nothing rests on them but speed: rows
/// of one trip mostly follow one another, and a trip mostly calls where another did.
#[derive(Drop)]
pub(crate) struct Guess {
    trip: u32,
    stop: StopNo,
    // By the number of a stop, those of the last two rows behind rows at it, the last one first.
    // On a line that is run both ways these are the stops beside it.
    behind: Vec<(StopNo, StopNo)>,
}

impl Guess {
    /// The first trip and the first stop, where there are so many stops. `OutOfMemory` where there
    /// is no memory.
    pub fn build(alloc: Global, stops: usize) -> Result<Guess, TableError>
        ensures memory { IfErr result (λ e. e ≡ OutOfMemory) }
    {
        let first = StopNo::new(0);
        Ok(Guess {
            trip: 0,
            stop: first,
            behind: vec![in alloc; (first, first); stops]?,
        })
    }

    /// The trip of the last row, and the one behind it.
    pub fn trips(&self) -> (u32, u32) {
        (self.trip, self.trip.saturating_add(1))
    }

    /// The stops of the last two rows behind rows at the stop of the last row.
    pub fn stops(&self) -> (StopNo, StopNo) {
        match self.behind.get(self.stop.get() as usize) {
            Some(stops) => *stops,
            None => (self.stop, self.stop),
        }
    }

    /// Takes a row as the last one.
    pub fn note(&mut self, call: &CallRow) {
        if let Some(stops) = self.behind.get_mut(self.stop.get() as usize)
            && stops.0 != call.stop
        {
            *stops = (call.stop, stops.0);
        }
        self.trip = call.trip;
        self.stop = call.stop;
    }
}
