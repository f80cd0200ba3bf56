//! The tables of so many trains as a feed that never fails.

ghost use Rattle.std.specs.Prelude.{◌≡◌, ◌≤◌, length, IfOk, IfSome, IsErr, IsErrOf, Some, option_map};
ghost use Rattle.feed_gen.specs.Tables.{files};
ghost use Rattle.mt_io.specs.Causes.{no_faults};

use crate::tables::table_named;
use mt_io::{Feed, FeedFault};
use std::alloc::Global;
use std::marker::Model;

/// The tables of a number of trains, the same ones in every folder. Each is made when it is asked
/// for.
#[derive(Drop)]
pub struct GenFeed {
    alloc: Global,
    trains: u32,
}

impl Model for GenFeed {
    ghost use Rattle.std.specs.Prelude.{ℕ, ◌≤◌};

    ghost Value = { ℕ };

    ghost view = { λ f. f.trains };

    ghost invariant = { λ f. f.trains ≤ 100000 };
}

impl GenFeed {
    /// The feed of so many trains. No table is made yet.
    pub fn build(alloc: Global, trains: u32) -> GenFeed
        requires { trains ≤ 100000 }
        ensures { result ≡ trains }
    {
        GenFeed { alloc, trains }
    }
}

impl Feed for GenFeed {
    ghost tables = { λ trains. Some (files trains) };

    ghost faults = { λ _. no_faults };

    fn table(&mut self, folder: &str, name: &str) -> Result<Option<Vec<u8>>, FeedFault>
        ensures bytes { IfOk result (λ table.
            files self.old folder.now name.now ≡ option_map (λ v. v.items) table) }
        ensures small { IfOk result (λ table. IfSome table (λ v. length v.items ≤ 268435456)) }
        ensures memory { IsErr result → IsErrOf result FeedFault.OutOfMemory }
        ensures same { self.new ≡ self.old }
    {
        match table_named(self.alloc, self.trains, name) {
            Ok(table) => Ok(table),
            Err(_) => Err(FeedFault::OutOfMemory),
        }
    }
}
