//! The change times of a feed.

ghost use Rattle.std.specs.Prelude.{◌≡◌, ◌<◌, ◌≤◌, IfOk, IfErr, length};
ghost use Rattle.delay_model.specs.Changes.{kind_of, station, change};
ghost use Rattle.change_times.specs.ChangeTables.{tables_of, HaveSameChanges};
ghost use Rattle.change_times.specs.Reach.{reached, reached_back, pairs};

use crate::change::Change;
use crate::faults::BuildFault;
use crate::lists::Lists;
use crate::reach::onward_and_back;
use crate::table::Table;
use feed_tables::FeedTables;
use mt_base::memory::OutOfMemory;
use mt_base::numbers::StopNo;
use mt_base::places::PlaceKind;
use std::alloc::Global;
use std::marker::Model;

/// The change times between the stops of a feed (GTFS Schedule, transfers.txt). They are seen as
/// tables that give the same change times as the feed's: the locations without their ids, rows of
/// `transfers.txt`, and the default in seconds.
#[derive(Drop)]
pub struct Changes {
    table: Table,
    onward: Lists,
    back: Lists,
}

impl Model for Changes {
    ghost use Rattle.change_times.specs.ChangeTables.{ChangeTables};

    ghost Value = { ChangeTables };

    ghost use Rattle.change_times.specs.Kept.{HasLists};

    ghost view = { λ a. a.table };

    ghost invariant = { HasLists };
}

impl Changes {
    /// The change times of a feed. `default` is the seconds of a change within a station, and of
    /// one whose row gives no seconds. `TooMany` exactly where more than 4,000,000 pairs of a stop
    /// or station and a stop have a change from the first to the second. `OutOfMemory` where there
    /// is no memory.
    pub fn build(alloc: Global, t: &FeedTables, default: u32) -> Result<Changes, BuildFault>
        requires default_least { 1 ≤ default }
        requires default_most { default ≤ 3600 }
        ensures same { IfOk result (HaveSameChanges (tables_of t.now default)) }
        ensures few { IfOk result (λ _. pairs (tables_of t.now default) ≤ 4000000) }
        ensures many { IfErr result (λ e. e ≡ BuildFault.TooMany
            → 4000000 < pairs (tables_of t.now default)) }
    {
        let table = Table::build(alloc, t, default)?;
        let (onward, back) = onward_and_back(alloc, &table)?;
        Ok(Changes {
            table,
            onward,
            back,
        })
    }

    /// The same change times once more. `OutOfMemory` where there is no memory.
    pub fn copy(&self) -> Result<Changes, OutOfMemory>
        ensures { IfOk result (λ changes. changes ≡ self.now) }
    {
        Ok(Changes {
            table: self.table.copy()?,
            onward: self.onward.copy()?,
            back: self.back.copy()?,
        })
    }

    /// The seconds that a change from `a` to `b` takes. None exactly where it is not possible.
    pub fn change(&self, a: StopNo, b: StopNo) -> Option<u32>
        ensures { result ≡ change self.now.stops self.now.transfers self.now.default a b }
    {
        self.table.change(a, b)
    }

    /// The stops and platforms to which one can change from `a`, by number, with the seconds of
    /// each change.
    pub fn reach(&self, a: StopNo) -> &[Change]
        ensures { result.now ≡ reached self.now a }
    {
        self.onward.get(a.get() as usize)
    }

    /// The stops and platforms from which one can change to `b`, by number, with the seconds of
    /// each change, if `b` is a stop or platform. For any other location the list is empty, so that
    /// all these lists together have no more changes than there are pairs.
    pub fn reach_back(&self, b: StopNo) -> &[Change]
        ensures { result.now ≡ reached_back self.now b }
    {
        self.back.get(b.get() as usize)
    }

    /// The station of a location: of a platform its `parent_station`, of any other location itself.
    pub fn station(&self, a: StopNo) -> StopNo
        ensures { result ≡ station self.now.stops a }
    {
        self.table.places().station(a)
    }

    /// How many locations there are.
    pub fn stops(&self) -> u32
        ensures { result ≡ length self.now.stops }
    {
        self.table.places().len() as u32
    }

    /// The kind of a location. None exactly where there is no such location.
    pub fn kind(&self, a: StopNo) -> Option<PlaceKind>
        ensures { result ≡ kind_of self.now.stops a }
    {
        self.table.places().kind(a)
    }
}
