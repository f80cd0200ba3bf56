//! The connections that dispatchers keep or drop.

ghost use Rattle.std.specs.Prelude.{◌≡◌, IfOk, OnOk, OnErr};
ghost use Rattle.std.specs.FinMap as map;
ghost use Rattle.delay_model.specs.Overrides.{connection_cmp};
ghost use Rattle.delay_model.specs.declared.overrides.Override.{Override as AnOverride};

use mt_base::keys::Node;
use mt_base::memory::OutOfMemory;
use std::alloc::Global;
use std::collections::BTreeMap;
use std::marker::Model;

/// An arrival, and a departure of another train that it may feed.
#[derive(Clone, Copy, Debug, PartialEq, Eq, PartialOrd, Ord)]
pub struct Connection {
    /// The arrival of the train that brings passengers.
    pub arrival: Node,
    /// The departure of the train that may wait for them.
    pub departure: Node,
}

/// What a dispatcher chose for a connection.
#[derive(Clone, Copy, Debug, PartialEq, Eq)]
pub enum Override {
    /// The departure waits for the arrival, without the limit of a waiting rule.
    Keep,
    /// The departure does not wait for the arrival.
    Drop,
}

/// The connections that are kept or dropped: a finite map, with at most one override for each.
#[derive(Drop)]
pub struct Overrides {
    rows: BTreeMap<Connection, Override>,
}

impl Model for Overrides {
    ghost use Rattle.std.specs.FinMap as map;
    ghost use Rattle.delay_model.specs.Overrides.{connection_cmp, coded_connection, coded_override};
    ghost use Rattle.delay_model.specs.declared.overrides.Override.{Override as AnOverride};

    ghost Value = { map.FinMap connection_cmp AnOverride };

    ghost coded = { map.code coded_connection coded_override };

    ghost view = { λ a. map.from_entries a.rows.entries };
}

impl Overrides {
    /// No connection is kept or dropped.
    pub fn new(alloc: Global) -> Overrides
        ensures { result ≡ map.empty }
    {
        Overrides {
            rows: BTreeMap::new(alloc),
        }
    }

    /// The same overrides once more. `OutOfMemory` where there is no memory.
    pub fn copy(&self) -> Result<Overrides, OutOfMemory>
        ensures { IfOk result (λ copy. copy ≡ self.now) }
    {
        Ok(Overrides {
            rows: self.rows.clone()?,
        })
    }

    /// The override of a connection.
    pub fn get(&self, connection: &Connection) -> Option<Override>
        ensures { result ≡ map.get self.now connection.now }
    {
        self.rows.get(connection).copied()
    }

    /// Keeps or drops a connection, in place of what was chosen before. `OutOfMemory` where there
    /// is no memory; then nothing changes.
    pub fn set(&mut self, connection: Connection, choice: Override) -> Result<(), OutOfMemory>
        ensures ok { OnOk result (self.new ≡ map.insert self.old connection choice) }
        ensures err { OnErr result (self.new ≡ self.old) }
    {
        self.rows.insert(connection, choice)?;
        Ok(())
    }

    /// Takes back what was chosen for a connection.
    pub fn remove(&mut self, connection: &Connection)
        ensures { self.new ≡ map.remove self.old connection.now }
    {
        let _ = self.rows.remove(connection);
    }
}
