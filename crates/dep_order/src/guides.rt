//! Guides to places in long buckets.

ghost use Rattle.std.specs.Prelude.{◌≤◌, length};

use crate::departure::Departure;
use mt_base::memory::OutOfMemory;
use std::alloc::Global;

/// For how many numbers there is room for one guide.
const NUMBERS_A_GUIDE: u32 = 16;

/// A departure and its number, as they were when a long walk came by.
#[derive(Clone, Copy)]
pub(crate) struct Guide {
    pub(crate) number: u32,
    pub(crate) departure: Departure,
}

/// Guides in the order of their departures, so that a walk to a place in a long bucket can begin
/// at one near it. What one says may be out of date: its departure may be taken out, or moved.
#[derive(Drop)]
pub(crate) struct Guides {
    guides: Vec<Guide>,
    room: usize,
}

impl Guides {
    /// No guides, with room for those among so many numbers. `OutOfMemory` where there is no
    /// memory.
    pub(crate) fn with_room(alloc: Global, numbers: u32) -> Result<Guides, OutOfMemory> {
        let room = (numbers / NUMBERS_A_GUIDE) as usize + 1;
        Ok(Guides {
            guides: Vec::with_capacity(alloc, room)?,
            room,
        })
    }

    /// No guides, with as much room. `OutOfMemory` where there is no memory.
    pub(crate) fn none_as(&self, alloc: Global) -> Result<Guides, OutOfMemory> {
        Ok(Guides {
            guides: Vec::with_capacity(alloc, self.room)?,
            room: self.room,
        })
    }

    /// How many guides there are.
    pub(crate) fn len(&self) -> usize {
        self.guides.len()
    }

    /// The last guide before the place of a departure.
    pub(crate) fn last_before(&self, departure: &Departure) -> Option<Guide> {
        let place = self.place(departure);
        if place == 0 {
            return None;
        }
        Some(self.guides[place - 1])
    }

    /// Notes a departure as a guide. It takes no memory: where there is no room all others are
    /// given up.
    pub(crate) fn note(&mut self, number: u32, departure: Departure) {
        if self.guides.len() >= self.room {
            self.guides.clear();
        }
        let place = self.place(&departure);
        // There is room, so that it succeeds.
        let _ = self.guides.insert(place, Guide { number, departure });
    }

    /// Takes the last guide before the place of a departure out.
    pub(crate) fn give_up_before(&mut self, departure: &Departure) {
        let place = self.place(departure);
        if place > 0 {
            let _ = self.guides.remove(place - 1);
        }
    }

    /// How many guides there are before the place of a departure.
    fn place(&self, departure: &Departure) -> usize
        ensures { result ≤ length self.now.guides.items }
    {
        self.guides
            .partition_point(|guide| guide.departure.leaves_before(departure))
    }
}
