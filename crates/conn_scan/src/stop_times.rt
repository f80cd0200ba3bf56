//! A time for each stop.

ghost use Rattle.std.specs.Prelude.{◌≡◌, ◌<◌, ◌^◌, None, Some, IfOk, IsTrue, get_or, length, replicate, set};
ghost use Rattle.conn_scan.specs.StopTimes.{is_by, is_earlier};

use mt_base::memory::OutOfMemory;
use mt_base::numbers::{StopNo, Time};
use std::alloc::Global;
use std::marker::Model;

/// What stands in a row that has no time: no time is as late.
const NEVER: u32 = 1 << 25;

/// For each stop, by number, a time or none.
#[derive(Drop)]
pub struct StopTimes {
    rows: Vec<u32>,
}

impl Model for StopTimes {
    ghost use Rattle.std.specs.Prelude.{ℕ, List, Option};

    ghost Value = { List (Option ℕ) };

    ghost use Rattle.conn_scan.specs.StopTimes.{seen, AreTimes};

    ghost view = { seen };

    ghost invariant = { AreTimes };
}

impl StopTimes {
    /// Room for so many stops, none of which has a time. `OutOfMemory` where there is no memory.
    #[tactic(auto, using(crate::proofs::TableLemmas::blank_times))]
    pub fn build(alloc: Global, stops: usize) -> Result<StopTimes, OutOfMemory>
        ensures { IfOk result (λ times. times ≡ replicate stops None) }
    {
        let mut rows = Vec::with_capacity(alloc, stops)?;
        rows.resize(stops, NEVER)?;
        Ok(StopTimes { rows })
    }

    /// Takes away all times.
    #[tactic(auto, using(crate::proofs::TableLemmas::blank_times))]
    pub fn clear(&mut self)
        ensures { self.new ≡ replicate (length self.old) None }
    {
        self.rows.fill(NEVER);
    }

    /// The time of a stop, in seconds from the base of day 0. None where it has none.
    pub fn get(&self, stop: StopNo) -> Option<Time>
        ensures { result ≡ get_or self.now stop None }
    {
        match self.rows.get(stop.get() as usize) {
            Some(row) => {
                if *row < NEVER {
                    Some(Time::new(*row))
                } else {
                    None
                }
            }
            None => None,
        }
    }

    /// Whether a stop has a time, and it is not after this one.
    #[inline(always)]
    pub fn is_by(&self, stop: StopNo, time: Time) -> bool
        requires { stop < length self.now }
        ensures { result ≡ is_by self.now stop time }
    {
        self.rows[stop.get() as usize] <= time.seconds()
    }

    /// Whether so many seconds from the base of day 0 are a time, and one that is earlier than that
    /// of a stop where it has one.
    #[inline]
    pub fn is_earlier(&self, stop: StopNo, seconds: u64) -> bool
        requires { stop < length self.now }
        ensures earlier { result ≡ is_earlier self.now stop seconds }
        ensures fits { IsTrue result → seconds < 2 ^ 25 }
    {
        seconds < u64::from(self.rows[stop.get() as usize])
    }

    /// Gives a stop this time.
    #[inline]
    #[tactic(auto, using(crate::proofs::TableLemmas::written_time))]
    pub fn set(&mut self, stop: StopNo, time: Time)
        requires { stop < length self.old }
        ensures { self.new ≡ set self.old stop (Some time) }
    {
        self.rows[stop.get() as usize] = time.seconds();
    }
}
