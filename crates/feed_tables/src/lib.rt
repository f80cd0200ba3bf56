//! The tables of a feed as a type that keeps what a feed keeps.
#![tactic(auto)]

ghost use Rattle.std.specs.Prelude.{◌≡◌};
ghost use Rattle.feed_tables.specs.Lawful.{IsLawful};

use mt_base::tables::Tables;
use std::marker::Model;

/// The tables of a feed. Every number in them is a row of its table, ids and names are distinct,
/// the calls of each trip are in order with times at both ends, dates are civil, and no table has
/// more rows than it may have. It is seen as its tables.
#[derive(Drop)]
pub struct FeedTables {
    tables: Tables,
}

impl Model for FeedTables {
    ghost use Rattle.mt_base.specs.declared.tables.Tables.{Tables};

    ghost Value = { Tables };

    ghost view = { λ feed. feed.tables };

    ghost use Rattle.feed_tables.specs.Lawful.{IsLawful};

    ghost invariant = { λ feed. IsLawful feed.tables };
}

impl FeedTables {
    /// These tables, which are lawful.
    pub fn build(tables: Tables) -> FeedTables
        requires lawful { IsLawful tables }
        ensures { result ≡ tables }
    {
        FeedTables { tables }
    }

    /// The tables.
    pub fn tables(&self) -> &Tables
        ensures tables { result.now ≡ self.now }
        ensures lawful { IsLawful self.now }
    {
        &self.tables
    }
}
