//! Where the passengers boarded who are aboard at a departure.

ghost use Rattle.std.specs.Prelude.{◌≡◌, ◌<◌, ◌≤◌, ◌+◌, ◌^◌, None, Some, IfOk, IfSome, get_or, length, replicate, set};

use mt_base::memory::OutOfMemory;
use std::alloc::Global;
use std::marker::Model;

/// For each departure, by number, the number of the one where passengers boarded who are aboard
/// there; none where no passenger is aboard.
#[derive(Drop)]
pub struct Aboard {
    /// The number of the boarding, and `base` more. What is below `base` an earlier query left.
    rows: Vec<u32>,
    base: u32,
}

impl Model for Aboard {
    ghost use Rattle.std.specs.Prelude.{ℕ, List, Option};

    ghost Value = { List (Option ℕ) };

    ghost use Rattle.conn_scan.specs.Aboard.{seen, IsBased};

    ghost view = { seen };

    ghost invariant = { IsBased };
}

impl Aboard {
    /// Room for so many numbers: nobody is aboard. `OutOfMemory` where there is no memory.
    #[tactic(auto, using(crate::proofs::TableLemmas::blank_numbers))]
    pub fn build(alloc: Global, numbers: usize) -> Result<Aboard, OutOfMemory>
        requires some { 0 < numbers }
        requires few { numbers ≤ 2 ^ 23 }
        ensures { IfOk result (λ aboard. aboard ≡ replicate numbers None) }
    {
        let mut rows = Vec::with_capacity(alloc, numbers)?;
        rows.resize(numbers, 0)?;
        Ok(Aboard { rows, base: 1 })
    }

    /// Lets everybody alight.
    #[tactic(auto, using(crate::proofs::TableLemmas::blank_numbers, crate::proofs::TableLemmas::earlier_numbers))]
    pub fn clear(&mut self)
        ensures { self.new ≡ replicate (length self.old) None }
    {
        let count = self.rows.len() as u32;
        if self.base > u32::MAX - 2 * count {
            self.rows.fill(0);
            self.base = 1;
        } else {
            self.base += count;
        }
    }

    /// The number of the departure where passengers boarded who are aboard at this one. None where
    /// nobody is.
    #[inline(always)]
    pub fn get(&self, number: u32) -> Option<u32>
        requires { number < length self.now }
        ensures boarded { result ≡ get_or self.now number None }
        ensures there { IfSome result (λ b. b < length self.now) }
        ensures few { length self.now ≤ 2 ^ 23 }
    {
        let row = self.rows[number as usize];
        if row >= self.base {
            Some(row - self.base)
        } else {
            None
        }
    }

    /// Notes at a departure the number of the one where passengers boarded.
    #[inline(always)]
    #[tactic(auto, using(crate::proofs::TableLemmas::written_number))]
    pub fn set(&mut self, number: u32, boarded: u32)
        requires there { number < length self.old }
        requires boarded { boarded < length self.old }
        ensures { self.new ≡ set self.old number (Some boarded) }
    {
        self.rows[number as usize] = self.base + boarded;
    }
}
