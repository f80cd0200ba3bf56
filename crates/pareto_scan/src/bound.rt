//! Up to how many rides passengers still board, and until when that stays so.

ghost use Rattle.std.specs.Prelude.{◌≡◌, ◌≤◌, ◌<◌, length};
ghost use Rattle.pareto_scan.specs.Bounds.{end_of, IsBound};
ghost use Rattle.pareto_scan.specs.Levels.{level_at, top_at};

use crate::level::{Level, lower_top};
use mt_base::numbers::Time;

/// A number of rides, and when the best arrival with so many at most is, in seconds from the base
/// of day 0; where there is none, a number that is greater than any time.
#[derive(Clone, Copy)]
pub(crate) struct Bound {
    pub(crate) top: u32,
    pub(crate) end: u32,
}

/// When the best arrival with at most so many rides is; where there is none, a number that is
/// greater than any time.
#[inline(always)]
fn end_after(levels: &[Level], rides: u32) -> u32
    requires { rides < length levels.now }
    ensures { result ≡ end_of (level_at levels.now rides).best }
{
    match &levels[rides as usize].best {
        Some(ending) => ending.time.seconds(),
        None => u32::MAX,
    }
}

/// The bound at this number of rides.
#[inline(always)]
pub(crate) fn bound_at(levels: &[Level], top: u32) -> Bound
    requires { top < length levels.now }
    ensures top { result.top ≡ top }
    ensures bound { IsBound levels.now result }
{
    Bound {
        top,
        end: end_after(levels, top),
    }
}

/// The bound at a time: as long as the best arrival is after it, the same, and nothing is read.
#[inline(always)]
pub(crate) fn lowered(levels: &[Level], bound: &Bound, time: Time) -> Bound
    requires { IsBound levels.now bound.now }
    ensures top { result.top ≡ top_at levels.now time bound.now.top }
    ensures bound { IsBound levels.now result }
    ensures few { result.top ≤ bound.now.top }
{
    if time.seconds() < bound.end {
        return *bound;
    }
    bound_at(levels, lower_top(levels, time, bound.top))
}
