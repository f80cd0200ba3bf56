//! A ride for each stop.

ghost use Rattle.std.specs.Prelude.{◌≡◌, ◌<◌, ◌^◌, ◌-◌, None, Some, IfOk, IfSome, get_or, length, replicate, set};

use mt_base::memory::OutOfMemory;
use mt_base::numbers::StopNo;
use std::alloc::Global;
use std::marker::Model;

/// A ride along a stretch of a train, as the numbers of two of its departures.
#[derive(Clone, Copy, Debug, PartialEq, Eq)]
pub struct Stretch {
    /// The departure where the passenger boards.
    pub first: u32,

    /// The last departure before the arrival where the passenger alights.
    pub last: u32,
}

/// What stands in a row that has no ride: no departure has these numbers.
const NOWHERE: Stretch = Stretch {
    first: u32::MAX,
    last: u32::MAX,
};

/// For each stop, by number, a ride or none.
#[derive(Drop)]
pub struct StopRides {
    rows: Vec<Stretch>,
}

impl Model for StopRides {
    ghost use Rattle.std.specs.Prelude.{List, Option};
    ghost use Rattle.conn_scan.specs.declared.stop_rides.Stretch.{Stretch as AStretch};

    ghost Value = { List (Option AStretch) };

    ghost use Rattle.conn_scan.specs.StopRides.{seen};

    ghost view = { seen };
}

impl StopRides {
    /// Room for so many stops, none of which has a ride. `OutOfMemory` where there is no memory.
    #[tactic(auto, using(crate::proofs::TableLemmas::blank_rides))]
    pub fn build(alloc: Global, stops: usize) -> Result<StopRides, OutOfMemory>
        ensures { IfOk result (λ rides. rides ≡ replicate stops None) }
    {
        let mut rows = Vec::with_capacity(alloc, stops)?;
        rows.resize(stops, NOWHERE)?;
        Ok(StopRides { rows })
    }

    /// The ride of a stop. None where it has none.
    pub fn get(&self, stop: StopNo) -> Option<Stretch>
        ensures { result ≡ get_or self.now stop None }
    {
        match self.rows.get(stop.get() as usize) {
            Some(row) => {
                if row.first == u32::MAX {
                    None
                } else {
                    Some(*row)
                }
            }
            None => None,
        }
    }

    /// Gives a stop this ride, or none.
    #[inline]
    #[tactic(auto, using(crate::proofs::TableLemmas::written_ride, crate::proofs::TableLemmas::written_nowhere))]
    pub fn set(&mut self, stop: StopNo, ride: &Option<Stretch>)
        requires there { stop < length self.old }
        requires number { IfSome ride.now (λ r. r.first < 2 ^ 32 - 1) }
        ensures { self.new ≡ set self.old stop ride.now }
    {
        self.rows[stop.get() as usize] = match ride {
            Some(stretch) => *stretch,
            None => NOWHERE,
        };
    }
}
