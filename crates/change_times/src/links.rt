//! Pairs of locations by their first.

ghost use Rattle.std.specs.Prelude.{◌≡◌, ◌-◌, ◌≤◌, IfOk, drop, length, take};
ghost use Rattle.std.specs.List.{filter};
ghost use Rattle.std.specs.List.Sorted.{IsNonDecreasingBy, IsPermutation};
ghost use Rattle.change_times.specs.Stored.{place_of, is_at};

use mt_base::memory::OutOfMemory;
use mt_base::numbers::StopNo;
use std::marker::Model;

/// A pair of locations.
#[derive(Clone, Copy)]
pub(crate) struct Link {
    pub(crate) place: StopNo,
    pub(crate) other: StopNo,
}

/// Pairs of locations by their first. They are seen as their list.
#[derive(Drop)]
pub(crate) struct Links {
    links: Vec<Link>,
}

impl Model for Links {
    ghost use Rattle.std.specs.Prelude.{List};
    ghost use Rattle.change_times.specs.declared.links.Link.{Link};

    ghost Value = { List Link };

    ghost use Rattle.std.specs.List.Sorted.{IsNonDecreasingBy};
    ghost use Rattle.change_times.specs.Stored.{place_of};

    ghost view = { λ a. a.links.items };

    ghost invariant = { λ a. IsNonDecreasingBy place_of a.links.items };
}

impl Links {
    /// These pairs by their first.
    pub(crate) fn build(links: Vec<Link>) -> Result<Links, OutOfMemory>
        ensures { IfOk result (IsPermutation links.items) }
    {
        let mut links = links;
        links.sort_by_key(|link| link.place.get())?;
        Ok(Links { links })
    }

    /// The pairs of which this location is the first.
    pub(crate) fn of(&self, place: StopNo) -> &[Link]
        ensures { result.now ≡ filter (is_at place) self.now }
    {
        let (start, end) = bounds(self.links.as_slice(), place);
        &self.links[start..end]
    }
}

/// Where the pairs with this first location begin and end.
fn bounds(links: &[Link], place: StopNo) -> (usize, usize)
    requires { IsNonDecreasingBy place_of links.now }
    ensures order { result.0 ≤ result.1 }
    ensures within { result.1 ≤ length links.now }
    ensures links { take (result.1 - result.0) (drop result.0 links.now)
        ≡ filter (is_at place) links.now }
{
    let start = links.partition_point(|link| link.place.get() < place.get());
    let end = links.partition_point(|link| link.place.get() <= place.get());
    (start, end)
}
