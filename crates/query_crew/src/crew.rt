//! A crew: a publisher of messages, and workers that answer queries beside it.

ghost use Rattle.std.specs.Prelude.{◌≡◌, ◌≤◌, [], All, Some, IfOk, IsSome, OnOk, length, vec_len};
ghost use mathlib.Core.List.{IsPrefix};
ghost use Rattle.schedule_build.specs.InStep.{AreInStep};
ghost use Rattle.query_crew.specs.Crews.{IsReady, AreRepliesTo, StandsBehind};
ghost use Rattle.query_crew.specs.Keeping.{AreKept, HaveViewers};
ghost use Rattle.query_crew.specs.Posting.{CanBeRun};

use crate::setting::Setting;
use crate::window::NumberedLines;
use crate::window_run::run_lines;
use crate::worker::Worker;
use delay_report::Reply;
use mt_base::memory::OutOfMemory;
use mt_io::Gate;
use schedule_build::Directory;
use snapshot_board::{NewHistory, Opening, Publisher, Viewer, open_board};
use std::alloc::{AllocError, Global};
use std::marker::Model;
use std::sync::Wait;
use std::thread::Threads;
use timetable::Timetable;
use train_nodes::Msg;

/// Who answers the lines of windows: a publisher of the messages, the names that are known, and
/// workers that answer the queries, one at least. `P` is the publisher of a board of timetables and
/// `V` its viewers.
pub struct Crew<P, V: Drop> {
    // posts the messages that are accepted
    pub(crate) publisher: P,

    // the names of the trains, stops, routes and service days
    pub(crate) directory: Directory,

    // the workers, each at its number
    pub(crate) workers: Vec<Worker<V>>,
}

impl<P, V: Drop> Model for Crew<P, V> {
    ghost use Rattle.std.specs.Prelude.{◌≤◌, ◌<◌, ◌^◌, vec_len};
    ghost use Rattle.query_crew.specs.CrewStates.{CrewState};

    ghost Value = { CrewState P V };

    ghost view = { λ c. record {
      publisher = c.publisher;
      directory = c.directory;
      workers = c.workers.items;
    } };

    ghost invariant = { λ c. (1 ≤ vec_len c.workers) × (vec_len c.workers < 2 ^ 32) };
}

impl<P, V: Drop> Crew<P, V> {
    /// The names of the trains, stops, routes and service days that are known.
    pub fn directory(&self) -> &Directory
        ensures { result.now ≡ self.now.directory }
    {
        &self.directory
    }
}

/// What a crew is made of.
#[derive(Drop)]
pub struct CrewPlan {
    /// The timetable before all messages.
    pub timetable: Timetable,

    /// The names of its trains, stops, routes and service days.
    pub directory: Directory,

    /// How many workers there are.
    pub workers: u32,
}

/// So many workers. The first of them get the viewers, as far as these reach.
fn build_workers<V: Drop>(
    alloc: Global,
    viewers: &mut Vec<V>,
    workers: u32,
    stops: u32,
    numbers: u32,
) -> Result<Vec<Worker<V>>, OutOfMemory>
    ensures count { IfOk result (λ all. vec_len all ≡ workers) }
    ensures viewers { IfOk result (λ all. HaveViewers (vec_len viewers.old) all.items) }
    ensures room { IfOk result (λ all. All (λ w. w.scratch.room
        ≡ record { stops = stops; numbers = numbers }) all.items) }
{
    let mut all = Vec::with_capacity(alloc, workers as usize)?;
    for _ in 0..workers {
        all.push(Worker::build(alloc, viewers.pop(), stops, numbers)?)?;
    }
    Ok(all)
}

impl<H: Opening<Timetable> + Send + Sync> Crew<Publisher<Timetable, H>, Viewer<Timetable, H>> {
    /// A crew whose workers have a viewer each. No message was posted yet. `OutOfMemory` where
    /// there is no memory.
    pub fn build<R: Wait>(
        rt: &R,
        alloc: Global,
        history: NewHistory<Msg>,
        plan: CrewPlan,
    ) -> Result<Crew<Publisher<Timetable, H>, Viewer<Timetable, H>>, OutOfMemory>
        // the history of the board, and how it opens
        requires book { history ≡ H.book }
        requires opening { H.opening ≡ Some plan.timetable }

        // names and trains are in step, and one to sixteen workers
        requires in_step { AreInStep plan.directory plan.timetable.state }
        requires some { 1 ≤ plan.workers }
        requires few { plan.workers ≤ 16 }

        // nothing was posted, these names are known, and so many workers are ready, each of which
        // has a viewer
        ensures posted { IfOk result (λ crew. crew.publisher ≡ []) }
        ensures names { IfOk result (λ crew. crew.directory ≡ plan.directory) }
        ensures workers { IfOk result (λ crew. length crew.workers ≡ plan.workers) }
        ensures viewers { IfOk result (λ crew. All (λ w. IsSome w.viewer) crew.workers) }
        ensures ready { IfOk result (IsReady H.opening) }
    {
        let viewers = plan.workers;
        Crew::build_limited(rt, alloc, history, plan, viewers)
    }

    /// The same, but only the first workers have a viewer: as many as `viewers`. The publisher
    /// answers in place of the others.
    pub fn build_limited<R: Wait>(
        rt: &R,
        alloc: Global,
        history: NewHistory<Msg>,
        plan: CrewPlan,
        viewers: u32,
    ) -> Result<Crew<Publisher<Timetable, H>, Viewer<Timetable, H>>, OutOfMemory>
        // the history of the board, and how it opens
        requires book { history ≡ H.book }
        requires opening { H.opening ≡ Some plan.timetable }

        // names and trains are in step, and one to sixteen workers
        requires in_step { AreInStep plan.directory plan.timetable.state }
        requires some { 1 ≤ plan.workers }
        requires few { plan.workers ≤ 16 }

        // nothing was posted, these names are known, so many workers are ready, and so many of them
        // have a viewer
        ensures posted { IfOk result (λ crew. crew.publisher ≡ []) }
        ensures names { IfOk result (λ crew. crew.directory ≡ plan.directory) }
        ensures workers { IfOk result (λ crew. length crew.workers ≡ plan.workers) }
        ensures viewers { IfOk result (λ crew. HaveViewers viewers crew.workers) }
        ensures ready { IfOk result (IsReady H.opening) }
    {
        let CrewPlan {
            timetable,
            directory,
            workers,
        } = plan;
        let stops = timetable.graph().changes().stops();
        let numbers = timetable.numbers();
        let copy = timetable.copy(alloc)?;
        // a board has one viewer at least, and nobody looks with one that is not given to a worker
        let seats = viewers.min(workers).max(1);
        let (publisher, mut all) = open_board(rt, alloc, history, timetable, copy, seats)?;
        all.truncate(viewers as usize);
        match build_workers(alloc, &mut all, workers, stops, numbers) {
            Ok(workers) => Ok(Crew {
                publisher,
                directory,
                workers,
            }),
            Err(_) => {
                drop(publisher.close(rt, all));
                Err(AllocError)
            }
        }
    }

    /// Runs a window, and gives the reply to each of its lines, in their order. Each message that
    /// is accepted is posted, in line order; beside it each worker with a viewer answers the
    /// queries of its clients, in line order, each by a look of its own. The publisher answers the
    /// other queries when the messages are posted. Threads are started only where a line asks
    /// something; else the workers learn, one after another, what was posted before the window, and
    /// then its messages are posted. The gate is called behind each message that was posted, before
    /// each look of a worker and inside it, and nowhere else. `OutOfMemory` where there is no
    /// memory; then the crew can only be closed.
    pub fn run_window<R: Threads + Wait + Sync, G: Gate + Sync>(
        &mut self,
        setting: &Setting<'_, R, G>,
        window: &NumberedLines<'_>,
    ) -> Result<Vec<Reply>, OutOfMemory>
        requires ready { IsReady H.opening self.old }
        requires lines { CanBeRun H.opening self.old.publisher self.old.directory
            window.now.first window.now.lines.now }

        // the replies, and how the board stands then
        ensures replies { IfOk result (λ replies. AreRepliesTo H.opening self.old.publisher
            self.old.directory window.now.first window.now.lines.now replies.items) }
        ensures stands { OnOk result (StandsBehind H.opening self.old.publisher self.new.publisher
            self.old.directory self.new.directory window.now.first window.now.lines.now) }

        // nothing that was posted is taken back, the same workers have a viewer, and the crew is
        // ready for the next window
        ensures later { IsPrefix self.old.publisher self.new.publisher }
        ensures kept { AreKept self.old.workers self.new.workers }
        ensures ready { OnOk result (IsReady H.opening self.new) }
    {
        run_lines(
            setting,
            &mut self.publisher,
            &mut self.directory,
            self.workers.as_mut_slice(),
            window,
        )
    }

    /// Ends the crew and its board. It waits for those that look.
    pub fn close<R: Wait>(self, rt: &R, alloc: Global) {
        let Crew {
            publisher,
            directory,
            workers,
        } = self;
        drop(workers);
        drop(directory);
        drop(publisher.close(rt, Vec::new(alloc)));
    }
}
