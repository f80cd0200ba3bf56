//! Waits by the first rule that fits.

ghost use Rattle.std.specs.Prelude.{◌≡◌, ◌≤◌, ◌<◌, ℕ, false, List, All, map, length, nat_eq};
ghost use Rattle.std.specs.Prelude.{is_some, None, IfOk, IfSome};
ghost use Rattle.mt_base.specs.declared.tables.RuleRow.{RuleRow as ARule};
ghost use Rattle.mt_base.specs.declared.tables.StopRow.{StopRow as AStopRow};
ghost use Rattle.delay_model.specs.Waits.{wait};
ghost use Rattle.waiting_rules.specs.Rules.{longest_wait};
ghost use Rattle.waiting_rules.specs.WaitTable.{parent_station, wait_table, some_waits, may_wait};
ghost use Rattle.waiting_rules.specs.WaitTable.{station_in};

use crate::classes::{Rows, WaitClass, parts};
use crate::first_rules::first_rules;
use crate::routes::RouteBounds;
use crate::stations::{parents, station};
use crate::waiting::{flag_at, flags};
use feed_tables::FeedTables;
use mt_base::memory::OutOfMemory;
use mt_base::numbers::{RouteNo, StopNo};
use mt_base::tables::RuleRow;
use std::alloc::Global;
use std::marker::Model;

/// How long trains wait for late feeders. It is seen as the parent stations of the locations and
/// the rows of `waiting_rules.txt`.
#[derive(Drop)]
pub struct Waits {
    rows: Rows,
    /// Where the first rules that make the same trains wait start and end.
    bounds: RouteBounds,
    /// Whether a rule with a wait above 0 names each location or its station, or no stop.
    flags: Vec<bool>,
    /// The longest wait of any rule in seconds.
    longest_wait: u32,
}

impl Model for Waits {
    ghost use Rattle.waiting_rules.specs.WaitTable.{WaitTable};

    ghost Value = { WaitTable };

    ghost view = { λ a. record { parents = a.rows.parents.items; rules = a.rows.rules.items } };

    ghost use Rattle.waiting_rules.specs.Inside.{IsConsistent};

    ghost invariant = { IsConsistent };
}

impl Waits {
    /// The waits of a feed. `OutOfMemory` where there is no memory.
    pub fn build(alloc: Global, t: &FeedTables) -> Result<Waits, OutOfMemory>
        ensures { IfOk result (λ waits. waits ≡ wait_table t.now.stops t.now.rules) }
    {
        let tables = t.tables();
        let parents = parents(alloc, tables.stops.as_slice())?;
        let rules = Vec::from_slice(alloc, tables.rules.as_slice())?;
        let first_rules = first_rules(alloc, rules.as_slice())?;
        Ok(Waits {
            bounds: RouteBounds::build(alloc, rules.as_slice(), first_rules.as_slice())?,
            flags: flags(alloc, parents.as_slice(), rules.as_slice())?,
            longest_wait: longest_wait(rules.as_slice()),
            rows: Rows {
                parents,
                rules,
                first_rules,
            },
        })
    }

    /// The same waits once more. `OutOfMemory` where there is no memory.
    pub fn copy(&self) -> Result<Waits, OutOfMemory>
        ensures { IfOk result (λ copy. copy ≡ self.now) }
    {
        let alloc = *self.flags.allocator();
        Ok(Waits {
            rows: Rows {
                parents: Vec::from_slice(alloc, self.rows.parents.as_slice())?,
                rules: Vec::from_slice(alloc, self.rows.rules.as_slice())?,
                first_rules: Vec::from_slice(alloc, self.rows.first_rules.as_slice())?,
            },
            bounds: self.bounds.copy()?,
            flags: Vec::from_slice(alloc, self.flags.as_slice())?,
            longest_wait: self.longest_wait,
        })
    }

    /// Whether there is no rule, so that no train waits.
    pub fn is_empty(&self) -> bool
        ensures { result ≡ nat_eq (length self.now.rules) 0 }
    {
        self.rows.rules.is_empty()
    }

    /// The longest wait of any rule in seconds, 0 without rules.
    pub fn longest_wait(&self) -> u32
        ensures is { result ≡ longest_wait self.now.rules }
        ensures longest { All (λ (rule : ARule). rule.max_wait ≤ result) self.now.rules }
        ensures small { result ≤ 86400 }
    {
        self.longest_wait
    }

    /// Whether trains may wait at `stop`: false only where no rule with a wait above 0 is for the
    /// stop or its station, and where both are among the locations, exactly there.
    pub fn may_wait_at(&self, stop: StopNo) -> bool
        ensures none { result ≡ false → (feeder connecting : ℕ) (stops : List AStopRow)
            → map parent_station stops ≡ self.now.parents
            → wait stops self.now.rules feeder connecting stop ≡ 0 }
        ensures some { stop < length self.now.parents
            → station_in self.now.parents stop < length self.now.parents
            → result ≡ may_wait self.now stop }
    {
        flag_at(self.flags.as_slice(), stop)
    }

    /// The class of the trains of the route `connecting` at `stop`: how long they wait, by the
    /// routes of late feeders. None exactly where no rule with a wait above 0 is for this route
    /// and this stop or its station.
    pub fn class(&self, connecting: RouteNo, stop: StopNo) -> Option<WaitClass<'_>>
        ensures some { is_some result ≡ some_waits self.now connecting stop }
        ensures class { IfSome result (λ class. class
            ≡ record { table = self.now; connecting = connecting; stop = stop }) }
        ensures none { result ≡ None → (feeder : ℕ) (stops : List AStopRow)
            → map parent_station stops ≡ self.now.parents
            → wait stops self.now.rules feeder connecting stop ≡ 0 }
    {
        if !flag_at(self.flags.as_slice(), stop) {
            return None;
        }
        let station = station(self.rows.parents.as_slice(), stop);
        let (parts, waits) = parts(&self.bounds, connecting, stop, station);
        if !waits {
            return None;
        }
        Some(WaitClass::new(&self.rows, connecting, stop, parts))
    }

    /// How many seconds a train of the route `connecting` waits at `stop` for a late train of the
    /// route `feeder`: at most `max_wait` of the first rule for these routes and for the stop or
    /// its station, or 0 where there is none. An empty field of a rule is for all.
    pub fn wait(&self, feeder: RouteNo, connecting: RouteNo, stop: StopNo) -> u32
        ensures wait { (stops : List AStopRow) → map parent_station stops ≡ self.now.parents
            → result ≡ wait stops self.now.rules feeder connecting stop }
        ensures longest { result ≤ 86400 }
    {
        match self.class(connecting, stop) {
            Some(class) => class.wait(feeder),
            None => 0,
        }
    }

    /// A law: no rule makes a train wait longer than 86,400 seconds. The call does nothing.
    pub fn waits_are_short(&self)
        ensures { All (λ (rule : ARule). rule.max_wait ≤ 86400) self.now.rules }
    {
        // A field is named, so that the check knows what holds of the rules.
        let _ = &self.rows;
    }
}

/// The longest wait of any of these rules in seconds, 0 without rules.
fn longest_wait(rules: &[RuleRow]) -> u32
    ensures { result ≡ longest_wait rules.now }
{
    rules.iter().map(|rule| rule.max_wait).max().unwrap_or(0)
}
