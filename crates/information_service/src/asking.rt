//! The timetable of a service, and questions to it.

ghost use Rattle.std.specs.Prelude.{◌≡◌, IfOk};

use crate::service::InformationService;
use conn_scan::Scratch;
use mt_base::memory::OutOfMemory;
use std::alloc::Global;
use timetable::Timetable;

/// How a question of the type `Q` is answered by an `R`, by what a timetable has and what searches
/// over it find.
pub trait AskTimetable<Q, R> {
    ghost use Rattle.std.specs.Prelude.{◌≡◌, ◌≤◌, ℕ, IfOk, length};
    ghost use Rattle.delay_model.specs.declared.network.Network.{Network};
    ghost use Rattle.delay_model.specs.declared.state.State.{State};

    /// This is an answer to the question in a state after so many accepted messages.
    ghost answers: { Network → State → ℕ → Q → R → Type 0 };

    /// The answer. `OutOfMemory` where there is no memory.
    fn ask(
        alloc: Global,
        timetable: &Timetable,
        scratch: &mut Scratch,
        question: &Q,
    ) -> Result<R, OutOfMemory>
        // there is room for a search
        requires stops { length timetable.now.network.stops ≤ scratch.old.room.stops }
        requires numbers { timetable.now.numbers ≤ scratch.old.room.numbers }

        // the answer, and the room that stays
        ensures answer { IfOk result (answers timetable.now.network timetable.now.state
            timetable.now.count question.now) }
        ensures room { scratch.new.room ≡ scratch.old.room };
}

impl InformationService {
    /// The timetable as it is now.
    pub fn timetable(&self) -> &Timetable
        ensures network { result.now.network ≡ self.now.network }
        ensures state { result.now.state ≡ self.now.state }
        ensures count { result.now.count ≡ self.now.count }
    {
        &self.timetable
    }

    /// The answer to a question. Want of memory is the only error, and nothing changes.
    pub fn ask<A: AskTimetable<Q, R>, Q, R>(
        &mut self,
        alloc: Global,
        question: &Q,
    ) -> Result<R, OutOfMemory>
        ensures answer { IfOk result (A.answers self.old.network self.old.state self.old.count
            question.now) }
        ensures unchanged { self.new ≡ self.old }
    {
        A::ask(alloc, &self.timetable, &mut self.scratch, question)
    }
}
