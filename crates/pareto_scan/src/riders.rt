//! Who is aboard at a departure.

ghost use Rattle.std.specs.Prelude.{◌≡◌, ◌<◌, ◌≤◌, ◌^◌, None, Some, IfOk, IfSome, get_or, length, replicate, set};

use mt_base::memory::OutOfMemory;
use std::alloc::Global;
use std::marker::Model;

/// Passengers aboard a train: where they boarded it, and after how many rides.
#[derive(Clone, Copy, Debug, PartialEq, Eq)]
pub struct Rider {
    /// The number of the departure where they boarded.
    pub boarded: u32,

    /// How many rides they had taken before: at most 7.
    pub rides: u32,
}

/// For each departure, by number, the passengers aboard there that have taken the fewest rides;
/// none where no passenger is aboard.
#[derive(Drop)]
pub struct Riders {
    /// Eight times the number of the boarding, the rides before, and `base` more. What is below
    /// `base` an earlier query left.
    rows: Vec<u32>,
    base: u32,
}

impl Model for Riders {
    ghost use Rattle.std.specs.Prelude.{List, Option};
    ghost use Rattle.pareto_scan.specs.declared.riders.Rider.{Rider as ARider};

    ghost Value = { List (Option ARider) };

    ghost use Rattle.pareto_scan.specs.Riders.{seen, IsBased};

    ghost view = { seen };

    ghost invariant = { IsBased };
}

impl Riders {
    /// Room for so many numbers: nobody is aboard. `OutOfMemory` where there is no memory.
    #[tactic(auto, using(crate::proofs::RiderRows::blank_riders))]
    pub fn build(alloc: Global, numbers: usize) -> Result<Riders, OutOfMemory>
        requires some { 0 < numbers }
        requires few { numbers ≤ 2 ^ 23 }
        ensures { IfOk result (λ riders. riders ≡ replicate numbers None) }
    {
        let mut rows = Vec::with_capacity(alloc, numbers)?;
        rows.resize(numbers, 0)?;
        Ok(Riders { rows, base: 1 })
    }

    /// Lets everybody alight.
    pub fn clear(&mut self)
        ensures { self.new ≡ replicate (length self.old) None }
    {
        let room = self.rows.len() as u32 * 8;
        if self.base > u32::MAX - 2 * room {
            self.rows.fill(0);
            self.base = 1;
        } else {
            self.base += room;
        }
    }

    /// Who is aboard at this departure. None where nobody is.
    #[inline(always)]
    #[tactic(auto, using(crate::proofs::RiderRows::coded_there, crate::proofs::RiderRows::coded_few))]
    pub fn get(&self, number: u32) -> Option<Rider>
        requires { number < length self.now }
        ensures rider { result ≡ get_or self.now number None }
        ensures there { IfSome result (λ r. r.boarded < length self.now) }
        ensures few { IfSome result (λ r. r.rides < 8) }
    {
        let row = self.rows[number as usize];
        if row >= self.base {
            let code = row - self.base;
            Some(Rider {
                boarded: code / 8,
                rides: code % 8,
            })
        } else {
            None
        }
    }

    /// Notes who is aboard at a departure.
    #[inline(always)]
    #[tactic(auto, using(crate::proofs::RiderRows::written_rider))]
    pub fn set(&mut self, number: u32, rider: Rider)
        requires there { number < length self.old }
        requires boarded { rider.boarded < length self.old }
        requires few { rider.rides < 8 }
        ensures { self.new ≡ set self.old number (Some rider) }
    {
        self.rows[number as usize] = self.base + (rider.boarded * 8 + rider.rides);
    }
}
