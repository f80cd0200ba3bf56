//! A gate for tests of threads. It holds a thread at one point until a second point has come, for a
//! limited number of turns, so that a test ends also where the second point never comes.
ghost use Rattle.std.specs.Prelude.{◌≡◌, [], false, map, IfOk};
ghost use Rattle.mt_io.specs.Holding.{Holding};

use crate::gates::{Gate, Point};
use mt_base::OutOfMemory;
use std::alloc::Global;
use std::marker::Model;
use std::sync::atomic::{AtomicBool, Ordering};
use std::thread::yield_now;

/// A thread that comes to the point `at` waits until the point `until` has come.
#[derive(Clone, Copy, Debug, PartialEq, Eq)]
pub struct Hold {
    /// Where a thread is held.
    pub at: Point,
    /// What lets it go on.
    pub until: Point,
}

// A hold, and what has become of it. Each flag is set once and stays set.
#[derive(Drop)]
struct HoldState {
    hold: Hold,
    at_has_come: AtomicBool,
    until_has_come: AtomicBool,
    wait_ran_out: AtomicBool,
}

impl HoldState {
    // A hold of which nothing has come.
    fn new(hold: Hold) -> HoldState
        ensures { result.hold ≡ hold }
    {
        HoldState {
            hold,
            at_has_come: AtomicBool::new(false),
            until_has_come: AtomicBool::new(false),
            wait_ran_out: AtomicBool::new(false),
        }
    }

    // Notes that this point has come.
    fn note(&self, point: Point) {
        if self.hold.at == point {
            self.at_has_come.store(true, Ordering::SeqCst);
        }
        if self.hold.until == point {
            self.until_has_come.store(true, Ordering::SeqCst);
        }
    }

    // Lets other threads run until the hold's `until` has come, at most for so many turns.
    fn wait(&self, turns: u64) {
        for _ in 0..turns {
            if self.until_has_come.load(Ordering::SeqCst) {
                return;
            }
            yield_now();
        }
        if !self.until_has_come.load(Ordering::SeqCst) {
            self.wait_ran_out.store(true, Ordering::SeqCst);
        }
    }

    // Whether a wait ran out, or the hold's `at` has not come.
    fn has_expired(&self) -> bool {
        self.wait_ran_out.load(Ordering::SeqCst) || !self.at_has_come.load(Ordering::SeqCst)
    }
}

/// A gate that holds threads at points until other points have come. It waits in turns, in each of
/// which other threads may run. It takes no runtime, so each of its calls returns.
#[derive(Drop)]
pub struct TurnGate {
    states: Vec<HoldState>,
    turns: u64,
}

impl Model for TurnGate {
    ghost Value = { Holding };

    ghost view = { λ g. record {
      holds = map (λ s. s.hold) g.states.items;
      turns = g.turns;
    } };
}

impl TurnGate {
    /// A gate with these holds, at each of which a thread waits for at most `turns` turns.
    pub fn build(alloc: Global, holds: Vec<Hold>, turns: u64) -> Result<TurnGate, OutOfMemory>
        ensures { IfOk result (λ g. g ≡ record { holds = holds.items; turns = turns }) }
    {
        let mut states = Vec::with_capacity(alloc, holds.len())?;
        for hold in &holds {
            states.push(HoldState::new(*hold))?;
        }
        Ok(TurnGate { states, turns })
    }

    /// Whether a hold has expired: a wait for its `until` used all turns, or its `at` has not come.
    pub fn expired(&self) -> bool
        ensures none { self.now.holds ≡ [] → result ≡ false }
    {
        self.states.iter().any(|state| state.has_expired())
    }
}

impl Gate for TurnGate {
    /// Notes that this point has come. Then it waits for each hold at this point, until that
    /// hold's `until` has come or the turns are used.
    fn at(&self, point: Point) {
        for state in &self.states {
            state.note(point);
        }
        for state in &self.states {
            if state.hold.at == point {
                state.wait(self.turns);
            }
        }
    }
}
