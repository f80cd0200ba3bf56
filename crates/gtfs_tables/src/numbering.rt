//! Names by number, in the order in which they first appear.

ghost use Rattle.std.specs.Prelude.{◌≡◌, ◌<◌, ◌≤◌, ◌+◌, ◌^◌, [], length, IfOk, IfErr, OnOk};
ghost use Rattle.gtfs_tables.specs.declared.faults.TableError.TheVariants.{OutOfMemory};
ghost use Rattle.gtfs_tables.specs.Numbers.{number_from, number_in, names_with};

use crate::faults::TableError;
use mt_base::names::Name;
use std::alloc::Global;
use std::collections::BTreeMap;

/// Names by number. After an error it is of no more use.
#[derive(Drop)]
pub(crate) struct Numbering {
    names: Vec<Name>,
    numbers: BTreeMap<String, u32>,
    // The number that was found or given last, since rows of one name mostly follow one another.
    last: u32,
}

impl Numbering {
    ghost use Rattle.gtfs_tables.specs.Numberings.{IsNumbered, names_of};

    /// No name.
    #[tactic(auto, unfolding(feed_tables::specs::Lawful::AreDistinct))]
    pub fn new(alloc: Global) -> Numbering
        ensures names { names_of result ≡ [] }
        ensures numbered { IsNumbered result }
    {
        Numbering {
            names: Vec::new(alloc),
            numbers: BTreeMap::new(alloc),
            last: 0,
        }
    }

    // The number of a name that is there.
    fn find(&self, name: &str) -> Option<u32>
        requires { IsNumbered self.now }
        ensures { result ≡ number_from 0 name.now (names_of self.now) }
    {
        match self.names.get(self.last as usize) {
            Some(last) if last.text() == name => Some(self.last),
            _ => self.numbers.get(name).copied(),
        }
    }

    /// The number of a name. A new name gets the next number. `OutOfMemory` where there is no
    /// memory.
    pub fn number(&mut self, alloc: Global, name: &str) -> Result<u32, TableError>
        requires numbered { IsNumbered self.old }
        requires room { length (names_of self.old) < 2 ^ 32 }
        ensures number { IfOk result (λ n. n ≡ number_in name.now (names_of self.old)) }
        ensures names { OnOk result (names_of self.new ≡ names_with name.now (names_of self.old)) }
        ensures size { OnOk result (length (names_of self.new)
            ≤ length (names_of self.old) + 1) }
        ensures numbered { OnOk result (IsNumbered self.new) }
        ensures memory { IfErr result (λ e. e ≡ OutOfMemory) }
    {
        if let Some(number) = self.find(name) {
            self.last = number;
            return Ok(number);
        }
        let number = self.names.len() as u32;
        let key = String::from_str(alloc, name)?;
        let text = Name::build(alloc, name)?;
        self.numbers.insert(key, number)?;
        self.names.push(text)?;
        self.last = number;
        Ok(number)
    }

    /// The names in order.
    pub fn into_names(self) -> Vec<Name>
        ensures { result.items ≡ names_of self }
    {
        self.names
    }
}
