//! Departures that a scan passes over, since they change nothing of what is known.

ghost use Rattle.std.specs.Prelude.{◌≡◌, ◌-◌, ◌<◌, ◌^◌, [], ◌∷◌, IfNone, IfSome, All, length};
ghost use Rattle.pareto_scan.specs.Bounds.{IsBound};
ghost use Rattle.pareto_scan.specs.Levels.{level_at};
ghost use Rattle.pareto_scan.specs.Passed.{from_ridden, is_quiet, HasRows};
ghost use Rattle.pareto_scan.specs.Riders.{riding};
ghost use Rattle.pareto_scan.specs.Ridden.{known, still_riding};

use crate::bound::Bound;
use crate::level::Level;
use crate::riders::{Rider, Riders};
use conn_scan::stop_times::StopTimes;
use dep_order::{Departures, Leaving};

/// From when on passengers can board at the stops who have taken so many rides at most.
#[inline(always)]
fn open_after(levels: &[Level], rides: u32) -> &StopTimes
    requires { rides < length levels.now }
    ensures { result.now ≡ (level_at levels.now rides).openings.times }
{
    &levels[rides as usize].openings.times
}

/// Those aboard at a departure, if they had taken fewer than `top` rides before.
#[inline(always)]
pub(crate) fn still_riding(riders: &Riders, number: u32, top: u32) -> Option<Rider>
    requires { number < length riders.now }
    ensures rider { result ≡ still_riding top (riding riders.now number) }
    ensures there { IfSome result (λ r. r.boarded < length riders.now) }
    ensures few { IfSome result (λ r. r.rides < 8) }
    ensures rides { IfSome result (λ r. r.rides < top) }
{
    match riders.get(number) {
        Some(rider) if rider.rides < top => Some(rider),
        _ => None,
    }
}

/// Whether a departure is before the end of a bound, nobody is aboard there who had taken fewer
/// rides than it says, and nobody can board, by the times from which on stops are open.
#[inline(always)]
fn is_quiet(d: &Leaving, times: &StopTimes, riders: &Riders, bound: &Bound) -> bool
    requires number { d.now.number < length riders.now }
    requires stop { d.now.stop < length times.now }
    ensures quiet { result ≡ is_quiet bound.now times.now riders.now d.now }
    ensures small { d.now.time < 2 ^ 25 }
{
    d.time.seconds() < bound.end
        && still_riding(riders, d.number, bound.top).is_none()
        && !times.is_by(d.stop, d.time)
}

/// The first of these departures on which somebody rides who had taken fewer rides than the bound
/// says, or from which on the bound is lower. None where none is left of them. What remains are
/// those after it.
#[inline(always)]
pub(crate) fn next_ridden(
    departures: &mut Departures<'_>,
    levels: &[Level],
    riders: &Riders,
    bound: &Bound,
) -> Option<Leaving>
    requires bound { IsBound levels.now bound.now }
    requires rows { All (HasRows (known levels.now riders.now)) departures.old }
    ensures some { IfSome result (λ d. from_ridden bound.now.top (known levels.now riders.now)
        departures.old ≡ d ∷ departures.new) }
    ensures none { IfNone result (from_ridden bound.now.top (known levels.now riders.now)
        departures.old ≡ []) }
{
    if bound.top == 0 {
        return None;
    }
    let times = open_after(levels, bound.top - 1);
    while let Some(d) = departures.next() {
        if !is_quiet(&d, times, riders, bound) {
            return Some(d);
        }
    }
    None
}
