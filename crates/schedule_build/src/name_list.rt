//! Names in the order of their numbers.

ghost use Rattle.std.specs.Prelude.{◌≡◌, ◌<◌, ◌^◌, [], IfOk, IfSome, length, slice_index_or};
ghost use Rattle.schedule_build.specs.Stored.{number_of_name};

use crate::name_numbers::{NameNumbers, name_at};
use mt_base::memory::OutOfMemory;
use mt_base::names::Name;
use std::alloc::Global;
use std::marker::Model;

/// Names in the order of their numbers. They are seen as their list.
#[derive(Drop)]
pub(crate) struct NameList {
    names: Vec<Name>,
    numbers: NameNumbers,
}

impl Model for NameList {
    ghost use Rattle.std.specs.Prelude.{ℕ, List};

    ghost Value = { List (List ℕ) };

    ghost view = { λ a. a.names.items };

    ghost use Rattle.schedule_build.specs.Hashed.{IsNumbered};

    ghost invariant = { λ a. IsNumbered a.names.items a.numbers };
}

impl NameList {
    /// These names, which are numbered in their order.
    pub(crate) fn build(alloc: Global, names: Vec<Name>) -> Result<NameList, OutOfMemory>
        requires few { length names.items < 2 ^ 32 }
        ensures { IfOk result (λ list. list ≡ names.items) }
    {
        let numbers = NameNumbers::build(alloc, &names)?;
        Ok(NameList { names, numbers })
    }

    /// The number of the first name that is equal to this one. None exactly where there is none.
    pub(crate) fn find(&self, name: &str) -> Option<u32>
        ensures number { result ≡ number_of_name self.now name.now }
        ensures there { IfSome result (λ n. n < length self.now) }
    {
        self.numbers.find(&self.names, name)
    }

    /// The name with this number, or the empty text where there is none.
    pub(crate) fn name(&self, number: u32) -> &str
        ensures { result.now ≡ slice_index_or self.now number [] }
    {
        name_at(&self.names, number)
    }
}
