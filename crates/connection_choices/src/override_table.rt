//! What dispatchers chose for connections, found by either of their events, with room that was
//! taken when it was made.

ghost use Rattle.std.specs.Prelude.{◌≡◌, ◌+◌, ◌-◌, ◌<◌, ◌≤◌, not, false, IfOk, if◌then◌else◌, filter, length, nat_eq};
ghost use Rattle.std.specs.FinMap as map;
ghost use Rattle.delay_model.specs.Overrides.{connection as a_connection};
ghost use Rattle.connection_choices.specs.Keeps.{kept_from, kept_into};
ghost use Rattle.connection_choices.specs.OverrideRows.{names_event};

use crate::event_set::EventSet;
use crate::keeps::Keeps;
use crate::override_rows::{End, put, rows_at, search, take_out};
use block_lists::BlockList;
use delay_model::overrides::{Connection, Override};
use mt_base::keys::Node;
use mt_base::memory::OutOfMemory;
use std::alloc::Global;
use std::marker::Model;

/// A map from connections to what was chosen for them, and how many more it has room for. The
/// choices stand in the order of the arrivals and once more in that of the departures, so that the
/// kept connections of either are found at once.
#[derive(Drop)]
pub struct OverrideTable {
    by_arrival: BlockList<(Connection, Override)>,
    by_departure: BlockList<(Connection, Override)>,
}

impl Model for OverrideTable {
    ghost use Rattle.connection_choices.specs.StoredOverrides.{Overrides, coded_overrides, seen, AreStored};

    ghost Value = { Overrides };

    ghost coded = { coded_overrides };

    ghost view = { seen };

    ghost invariant = { AreStored };
}

impl OverrideTable {
    /// Nothing is chosen yet, and there is room for so many choices. `OutOfMemory` where there is
    /// no memory.
    #[tactic(auto, using(crate::proofs::OverrideOrders::nothing))]
    pub fn with_room(alloc: Global, spare: u32) -> Result<OverrideTable, OutOfMemory>
        ensures { IfOk result (λ table. table ≡ record { choices = map.empty; spare = spare }) }
    {
        Ok(OverrideTable {
            by_arrival: BlockList::with_room(alloc, spare)?,
            by_departure: BlockList::with_room(alloc, spare)?,
        })
    }

    /// The same choices once more, with the same room. `OutOfMemory` where there is no memory.
    pub fn copy(&self, alloc: Global) -> Result<OverrideTable, OutOfMemory>
        ensures { IfOk result (λ copy. copy ≡ self.now) }
    {
        Ok(OverrideTable {
            by_arrival: self.by_arrival.copy(alloc)?,
            by_departure: self.by_departure.copy(alloc)?,
        })
    }

    /// For how many more connections there is room.
    pub fn spare(&self) -> u32
        ensures { result ≡ self.now.spare }
    {
        self.by_arrival.room()
    }

    /// Whether nothing is chosen.
    #[tactic(auto, using(crate::proofs::OverrideOrders::sorted_len))]
    pub fn is_empty(&self) -> bool
        ensures { result ≡ nat_eq (map.len self.now.choices) 0 }
    {
        self.by_arrival.is_empty()
    }

    /// What was chosen for a connection. None exactly where nothing was.
    pub fn get(&self, connection: &Connection) -> Option<Override>
        ensures { result ≡ map.get self.now.choices connection.now }
    {
        match search(&self.by_arrival, End::Arrival, connection) {
            Ok(place) => Some(self.by_arrival.get(place).1),
            Err(_) => None,
        }
    }

    /// The arrivals whose connection to a departure is kept.
    #[tactic(auto, using(crate::proofs::KeepLemmas::found_into))]
    pub fn keeps_into(&self, departure: &Node) -> Keeps<'_>
        ensures { result ≡ kept_into self.now.choices departure.now }
    {
        Keeps {
            rows: rows_at(&self.by_departure, End::Departure, departure),
            end: End::Departure,
        }
    }

    /// The departures to which the connection from an arrival is kept.
    #[tactic(auto, using(crate::proofs::KeepLemmas::found_from))]
    pub fn keeps_from(&self, arrival: &Node) -> Keeps<'_>
        ensures { result ≡ kept_from self.now.choices arrival.now }
    {
        Keeps {
            rows: rows_at(&self.by_arrival, End::Arrival, arrival),
            end: End::Arrival,
        }
    }

    /// Chooses for a connection, in place of what was chosen before. It takes no memory.
    #[tactic(auto, using(crate::proofs::OverrideOrders::chosen))]
    pub fn set(&mut self, connection: Connection, choice: Override)
        requires spare { map.contains_key self.old.choices connection ≡ false → 0 < self.old.spare }
        ensures choices { self.new.choices ≡ map.insert self.old.choices connection choice }
        ensures spare { self.new.spare
            ≡ (if map.contains_key self.old.choices connection then self.old.spare
            else self.old.spare - 1) }
    {
        put(&mut self.by_arrival, End::Arrival, &connection, choice);
        put(&mut self.by_departure, End::Departure, &connection, choice);
    }

    /// Takes back what was chosen for a connection, and gives its room back.
    #[tactic(auto, using(crate::proofs::OverrideOrders::chosen))]
    pub fn remove(&mut self, connection: &Connection)
        ensures choices { self.new.choices ≡ map.remove self.old.choices connection.now }
        ensures spare { self.new.spare
            ≡ (if map.contains_key self.old.choices connection.now then self.old.spare
            + 1 else self.old.spare) }
    {
        take_out(&mut self.by_arrival, End::Arrival, connection);
        take_out(&mut self.by_departure, End::Departure, connection);
    }

    /// Takes back what was chosen for connections that name one of these events, and gives its room
    /// back.
    pub fn remove_all<E: EventSet>(&mut self, events: &E)
        ensures choices { self.new.choices ≡ map.retain_keys self.old.choices
            (λ p. not (names_event (E.holds events.now) p)) }
        ensures spare { self.new.spare ≡ self.old.spare
            + (map.len self.old.choices - map.len self.new.choices) }
    {
        retain(&mut self.by_arrival, events);
        retain(&mut self.by_departure, events);
    }
}

/// Keeps the choices for connections that name none of these events.
fn retain<E: EventSet>(rows: &mut BlockList<(Connection, Override)>, events: &E)
    ensures items { rows.new.items
        ≡ filter (λ row. not (names_event (E.holds events.now) row.0)) rows.old.items }
    ensures room { rows.new.room + length rows.new.items
        ≡ rows.old.room + length rows.old.items }
{
    rows.retain(|row| !(events.has(&row.0.arrival) || events.has(&row.0.departure)));
}

/// The connection from an arrival to a departure.
pub fn connection(arrival: Node, departure: Node) -> Connection
    ensures { result ≡ a_connection arrival departure }
{
    Connection { arrival, departure }
}
