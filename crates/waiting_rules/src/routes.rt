//! The bounds of the first rules by the routes that they make wait.

ghost use Rattle.std.specs.Prelude.{◌≡◌, ◌<◌, ◌≤◌, ◌+◌, ◌^◌, ℕ, Option, All, IfOk, length};
ghost use Rattle.waiting_rules.specs.Indexed.{AreFirst};
ghost use Rattle.waiting_rules.specs.Bounded.{HasBounds, AreInOrder, AreStarts, IsStart, bounds_in};
ghost use Rattle.waiting_rules.specs.Scopes.{row_of, trains};

use crate::bounds::{Bounds, all_bounds};
use crate::parts::Part;
use crate::scopes::{Connecting, Scope, row_of};
use mt_base::memory::OutOfMemory;
use mt_base::numbers::{RouteNo, StopNo};
use mt_base::tables::RuleRow;
use std::alloc::Global;
use std::marker::Model;

/// The bounds of the first rules by the trains that they make wait, so that those of one route are
/// found at once. It is seen as the bounds in the order of trains.
#[derive(Drop)]
pub(crate) struct RouteBounds {
    bounds: Vec<(Connecting, Bounds)>,
    /// Where the bounds of each row begin, and at the end how many there are: those for all routes
    /// are the first row, and those of each route the one behind its number.
    starts: Vec<usize>,
}

impl Model for RouteBounds {
    ghost use Rattle.std.specs.Prelude.{List};
    ghost use Rattle.waiting_rules.specs.declared.bounds.Bounds.{Bounds};
    ghost use Rattle.waiting_rules.specs.declared.scopes.Connecting.{Connecting};

    ghost Value = { List (Connecting × Bounds) };

    ghost view = { λ a. a.bounds.items };

    ghost use Rattle.waiting_rules.specs.InsideRoutes.{IsRouted};

    ghost invariant = { IsRouted };
}

impl RouteBounds {
    /// The bounds of the first rules of a file.
    pub(crate) fn build(
        alloc: Global,
        rules: &[RuleRow],
        first_rules: &[(Scope, u32)],
    ) -> Result<RouteBounds, OutOfMemory>
        requires first { AreFirst rules.now first_rules.now }
        requires few { length first_rules.now < 2 ^ 32 }
        ensures { IfOk result (HasBounds rules.now first_rules.now) }
    {
        let bounds = all_bounds(alloc, rules, first_rules)?;
        let starts = starts(alloc, bounds.as_slice())?;
        Ok(RouteBounds { bounds, starts })
    }

    /// The same bounds once more. `OutOfMemory` where there is no memory.
    pub(crate) fn copy(&self) -> Result<RouteBounds, OutOfMemory>
        ensures { IfOk result (λ copy. copy ≡ self.now) }
    {
        let alloc = *self.bounds.allocator();
        let bounds = Vec::from_slice(alloc, self.bounds.as_slice())?;
        let starts = Vec::from_slice(alloc, self.starts.as_slice())?;
        Ok(RouteBounds { bounds, starts })
    }

    /// The bounds of the rules with this field for the connecting route.
    pub(crate) fn of(&self, route: Option<RouteNo>) -> &[(Connecting, Bounds)]
        ensures route { All (λ b. b.0.route ≡ route) result.now }
        ensures order { AreInOrder result.now }
        ensures all { (stop : Option ℕ) → bounds_in result.now (trains route stop)
            ≡ bounds_in self.now (trains route stop) }
    {
        let row = row_of(&route);
        if row + 1 >= self.starts.len() {
            return &self.bounds[0..0];
        }
        &self.bounds[self.starts[row]..self.starts[row + 1]]
    }
}

/// The bounds of the rules with this field for the stop, among those of one route. They are empty
/// where there is no such rule.
pub(crate) fn bounds_at(row: &[(Connecting, Bounds)], stop: Option<StopNo>) -> Bounds
    ensures { (route : Option ℕ) → AreInOrder row.now → All (λ b. b.0.route ≡ route) row.now
        → result ≡ bounds_in row.now (trains route stop) }
{
    match row.binary_search_by(|bounds| bounds.0.stop.cmp(&stop)) {
        Ok(at) => row[at].1,
        Err(_) => Bounds {
            part: Part { start: 0, end: 0 },
            waits: false,
        },
    }
}

/// Where the bounds of each row begin, and at the end how many there are.
fn starts(alloc: Global, bounds: &[(Connecting, Bounds)]) -> Result<Vec<usize>, OutOfMemory>
    requires { AreInOrder bounds.now }
    ensures { IfOk result (λ v. AreStarts bounds.now v.items) }
{
    let rows = rows(bounds);
    let mut starts = Vec::with_capacity(alloc, rows + 1)?;
    for row in 0..rows + 1 {
        starts.push(start_of(bounds, row))?;
    }
    Ok(starts)
}

/// How many rows have bounds, with those before them.
fn rows(bounds: &[(Connecting, Bounds)]) -> usize
    requires { AreInOrder bounds.now }
    ensures few { result ≤ 2 ^ 32 + 1 }
    ensures all { All (λ b. row_of b.0.route < result) bounds.now }
{
    match bounds.last() {
        Some(last) => row_of(&last.0.route) + 1,
        None => 0,
    }
}

/// Where the bounds of a row begin.
fn start_of(bounds: &[(Connecting, Bounds)], row: usize) -> usize
    requires { AreInOrder bounds.now }
    ensures { IsStart bounds.now row result }
{
    bounds.partition_point(|bounds| row_of(&bounds.0.route) < row)
}
