//! Lists of changes in one vector.

ghost use Rattle.std.specs.Prelude.{◌≡◌, ◌++◌, ◌∷◌, [], IfOk, OnOk, slice_index_or};
ghost use Rattle.change_times.specs.Cuts.{bounds_of};

use crate::change::Change;
use mt_base::memory::OutOfMemory;
use std::alloc::Global;
use std::marker::Model;

/// Lists of changes, one after the other in one vector. They are seen as the lists.
#[derive(Drop)]
pub(crate) struct Lists {
    ends: Vec<usize>,
    changes: Vec<Change>,
}

impl Model for Lists {
    ghost use Rattle.std.specs.Prelude.{List};
    ghost use Rattle.change_times.specs.declared.change.Change.{Change};

    ghost Value = { List (List Change) };

    ghost use Rattle.change_times.specs.Cuts.{cut, AreEnds};

    ghost view = { λ a. cut 0 a.ends.items a.changes.items };

    ghost invariant = { λ a. AreEnds 0 a.ends.items a.changes.items };
}

impl Lists {
    /// No list.
    pub(crate) fn new(alloc: Global) -> Lists
        ensures { result ≡ [] }
    {
        Lists {
            ends: Vec::new(alloc),
            changes: Vec::new(alloc),
        }
    }

    /// One more list.
    pub(crate) fn push(&mut self, list: &[Change]) -> Result<(), OutOfMemory>
        ensures { OnOk result (self.new ≡ self.old ++ list.now ∷ []) }
    {
        self.ends.reserve(1)?;
        self.changes.extend_from_slice(list)?;
        self.ends.push(self.changes.len())?;
        Ok(())
    }

    /// The list numbered `i`, from 0, or no change where there is none.
    pub(crate) fn get(&self, i: usize) -> &[Change]
        ensures { result.now ≡ slice_index_or self.now i [] }
    {
        let (start, end) = bounds(self.ends.as_slice(), i);
        &self.changes[start..end]
    }

    /// The same lists once more.
    pub(crate) fn copy(&self) -> Result<Lists, OutOfMemory>
        ensures { IfOk result (λ lists. lists ≡ self.now) }
    {
        Ok(Lists {
            ends: self.ends.clone()?,
            changes: self.changes.clone()?,
        })
    }
}

/// Where the list numbered `i` begins and ends, by the ends of the lists. Both are 0 where there is
/// no such list.
fn bounds(ends: &[usize], i: usize) -> (usize, usize)
    ensures { result ≡ bounds_of ends.now i }
{
    if i >= ends.len() {
        (0, 0)
    } else if i == 0 {
        (0, ends[0])
    } else {
        (ends[i - 1], ends[i])
    }
}
