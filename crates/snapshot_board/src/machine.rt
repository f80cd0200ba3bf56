//! The board as a machine that takes one step at a time.

ghost use Rattle.std.specs.Prelude.{◌≡◌, true, IfOk, MatchResult};
ghost use Rattle.snapshot_board.specs.declared.event.Event.TheVariants.{Look};
ghost use Rattle.snapshot_board.specs.Machines.{at_opening, after_event, is_step, IsFault};

pub use crate::event::{Event, ViewerCounts};
use mt_base::memory::OutOfMemory;
use std::alloc::Global;
use std::marker::Model;

/// The machine: the posted messages, the count that each note holds, and for each viewer how much
/// it saw and the least that it may look at.
#[derive(Drop)]
pub struct Machine<M> {
    posted: Vec<M>,
    notes: Vec<u64>,
    viewers: Vec<ViewerCounts>,
}

/// Why an event was not accepted. It is handed back.
#[derive(Drop)]
pub enum ApplyFault<M> {
    /// The event is no step of the machine.
    NotAStep(Event<M>),
    /// There was no memory for a post or a note.
    OutOfMemory(Event<M>),
}

impl<M> Model for Machine<M> {
    ghost use Rattle.snapshot_board.specs.Boards.{BoardState};

    ghost Value = { BoardState M };

    ghost view = { λ m. record {
      posted = m.posted.items;
      notes = m.notes.items;
      viewers = m.viewers.items;
    } };
}

impl<M> Machine<M> {
    /// Nothing is posted or noted, and so many viewers are newcomers. `OutOfMemory` where there is
    /// no memory.
    pub fn build(alloc: Global, viewers: u32) -> Result<Machine<M>, OutOfMemory>
        ensures { IfOk result (λ m. m ≡ at_opening viewers) }
    {
        let newcomer = ViewerCounts { seen: 0, least: 0 };
        let viewers = vec![in alloc; newcomer; viewers as usize]?;
        Ok(Machine {
            posted: Vec::new(alloc),
            notes: Vec::new(alloc),
            viewers,
        })
    }

    // Whether the event is a step.
    fn accepts(&self, e: &Event<M>) -> bool
        ensures { result ≡ is_step self.now e.now }
    {
        match e {
            Event::Post(_) | Event::Tell => true,
            Event::Look { viewer, count } => self.may_look(*viewer, *count),
            Event::Learn { viewer, note } => {
                (*viewer as usize) < self.viewers.len() && *note < self.notes.len() as u64
            }
        }
    }

    // Whether the viewer is there and may look at so many of the posts.
    fn may_look(&self, viewer: u32, count: u64) -> bool
        ensures { result ≡ is_step self.now (Look viewer count) }
    {
        let Some(counts) = self.viewers.get(viewer as usize) else {
            return false;
        };
        counts.seen <= count && counts.least <= count && count <= self.posted.len() as u64
    }

    /// Takes an event. `NotAStep` exactly where it is no step of the machine; `OutOfMemory` only
    /// where it is one, and there is no memory for what is posted or noted. After an error the
    /// machine is as before.
    pub fn apply(&mut self, e: Event<M>) -> Result<(), ApplyFault<M>>
        ensures { MatchResult result
            (λ _. (is_step self.old e ≡ true) × (self.new ≡ after_event self.old e))
            (λ fault. (self.new ≡ self.old) × IsFault self.old e fault) }
    {
        if !self.accepts(&e) {
            return Err(ApplyFault::NotAStep(e));
        }
        match e {
            Event::Post(m) => match self.posted.push(m) {
                Ok(()) => Ok(()),
                Err(failed) => Err(ApplyFault::OutOfMemory(Event::Post(failed.value))),
            },
            Event::Look { viewer, count } => {
                self.viewers[viewer as usize].seen = count;
                Ok(())
            }
            Event::Tell => match self.notes.push(self.posted.len() as u64) {
                Ok(()) => Ok(()),
                Err(_) => Err(ApplyFault::OutOfMemory(Event::Tell)),
            },
            Event::Learn { viewer, note } => {
                let noted = self.notes[note as usize];
                let least = self.viewers[viewer as usize].least;
                self.viewers[viewer as usize].least = least.max(noted);
                Ok(())
            }
        }
    }
}
