//! The rows of a table by their ids.

ghost use Rattle.std.specs.Prelude.{◌≡◌, ◌<◌, ◌^◌, ℕ, List, [], length};
ghost use Rattle.gtfs_tables.specs.Ids.{AreIds, AddsId, number_of_id};

use crate::faults::TableError;
use std::alloc::Global;
use std::collections::BTreeMap;

/// The numbers of rows by their ids. After an error it is of no more use.
#[derive(Drop)]
pub(crate) struct Ids {
    numbers: BTreeMap<String, u32>,
}

impl Ids {
    /// No id.
    #[tactic(auto, unfolding(feed_tables::specs::Lawful::AreDistinct))]
    pub fn new(alloc: Global) -> Ids
        ensures { AreIds result [] }
    {
        Ids {
            numbers: BTreeMap::new(alloc),
        }
    }

    /// Adds the id of the row with this number, which is the number of rows before it. False where
    /// an earlier row has it. `OutOfMemory` where there is no memory.
    pub fn add(&mut self, alloc: Global, id: &str, number: usize) -> Result<bool, TableError>
        requires room { number < 2 ^ 32 }
        ensures { (names : List (List ℕ)) → AreIds self.old names → number ≡ length names
            → AddsId result id.now names self.new }
    {
        let key = String::from_str(alloc, id)?;
        Ok(self.numbers.insert(key, number as u32)?.is_none())
    }

    /// The number of the row with an id. None exactly where no row has it.
    pub fn find(&self, id: &str) -> Option<u32>
        ensures { result ≡ number_of_id self.now id.now }
    {
        self.numbers.get(id).copied()
    }
}
