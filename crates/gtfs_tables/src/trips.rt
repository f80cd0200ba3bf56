//! `trips.txt` read by itself.

ghost use Rattle.std.specs.Prelude.{◌≡◌, ◌≤◌, ◌+◌, ◌^◌, ℕ, List, Some, IsTrue, IfOk, OnOk};
ghost use Rattle.gtfs_tables.specs.Checks.{Gives};
ghost use Rattle.gtfs_tables.specs.Numberings.{IsNumbered, names_of};
ghost use Rattle.gtfs_tables.specs.Numbers.{number_from};
ghost use Rattle.gtfs_tables.specs.Sizes.{IsSmall, GrowsByRow, GrowsByTable};
ghost use Rattle.gtfs_tables.specs.Texts.{AreRecordsOf};
ghost use Rattle.gtfs_tables.specs.TripTables.{trips_view, trips_size, IsTripTable};
ghost use Rattle.gtfs_tables.specs.Trips.{ListedTrips, trip_columns, trip_ids, with_trip, trip_step, trips_of};

use crate::builders::{TableBuilder, build_table};
use crate::columns::Column;
use crate::faults::{Cause, Fault, TableError};
use crate::ids::Ids;
use crate::numbering::Numbering;
use crate::sheets::Sheet;
use mt_base::names::Name;
use mt_base::numbers::RouteNo;
use mt_base::rows::Rows;
use mt_base::tables::TripRow;
use std::alloc::Global;
use std::marker::Model;

// What the rows so far made. After an error it is of no more use.
#[derive(Drop)]
struct TripTable {
    rows: Vec<TripRow>,
    ids: Ids,
    routes: Numbering,
    services: Numbering,
}

impl TripTable {
    /// Adds a row, unless an earlier one has its `trip_id`.
    fn add(
        &mut self,
        alloc: Global,
        row: u64,
        route: &str,
        service: &str,
        trip: &str,
    ) -> Result<(), TableError>
        requires numbered { IsTripTable self.old }
        requires room { trips_size (trips_view self.old) + 3 ≤ 2 ^ 32 }
        ensures size { OnOk result (GrowsByRow (trips_size (trips_view self.old))
            (trips_size (trips_view self.new))) }
        ensures numbered { OnOk result (IsTripTable self.new) }
        ensures made { Gives (λ _. trips_view self.new) result
            (with_trip row route.now service.now trip.now (trips_view self.old)) }
    {
        if !self.ids.add(alloc, trip, self.rows.len())? {
            return Err(TableError::Bad(Fault {
                row,
                cause: Cause::DuplicateKey,
            }));
        }
        let id = Name::build(alloc, trip)?;
        let route = RouteNo::new(self.routes.number(alloc, route)?);
        let service = self.services.number(alloc, service)?;
        self.rows.push(TripRow { id, route, service })?;
        Ok(())
    }
}

impl TableBuilder for TripTable {
    ghost use Rattle.gtfs_tables.specs.declared.columns.Column.{Column};

    ghost Made = { ListedTrips };

    ghost made = { trips_view };

    ghost Given = { Unit {0} };

    ghost given = { λ _. tt };

    ghost IsSound = { IsTripTable };

    ghost size = { λ t. trips_size (trips_view t) };

    ghost columns = { trip_columns };

    ghost step = { λ _. trip_step };

    fn add_row(&mut self, alloc: Global, row: u64, sheet: &Sheet<'_>) -> Result<(), TableError> {
        let (route, service, trip) = (sheet.text(0), sheet.text(1), sheet.text(2));
        self.add(alloc, row, route, service, trip)
    }
}

/// The trips of a feed with their routes and services, which are numbered in the order in which
/// they first appear.
#[derive(Drop)]
pub(crate) struct Trips {
    table: TripTable,
}

impl Model for Trips {
    ghost use Rattle.gtfs_tables.specs.Trips.{ListedTrips};

    ghost Value = { ListedTrips };

    ghost use Rattle.gtfs_tables.specs.TripTables.{trips_view, IsTripTable};

    ghost view = { λ trips. trips_view trips.table };

    ghost invariant = { λ trips. IsTripTable trips.table };
}

/// What `trips.txt` gives.
#[derive(Drop)]
pub(crate) struct TripParts {
    /// The trips, in the order of the table.
    pub trips: Rows<TripRow>,
    /// The names of the routes, by number.
    pub routes: Numbering,
    /// The names of the services, by number.
    pub services: Numbering,
}

impl Trips {
    /// The number of the trip with this `trip_id`: its row in `trips.txt`, from 0. None exactly
    /// where there is none.
    pub fn find(&self, id: &str) -> Option<u32>
        ensures { result ≡ number_from 0 id.now (trip_ids self.now.rows) }
    {
        self.table.ids.find(id)
    }

    /// Whether the trip with this number has this `trip_id`. No other trip has it then.
    pub fn has_id(&self, number: u32, id: &[u8]) -> bool
        ensures { IsTrue result → number_from 0 id.now (trip_ids self.now.rows) ≡ Some number }
    {
        match self.table.rows.get(number as usize) {
            Some(row) => row.id.text().as_bytes() == id,
            None => false,
        }
    }

    /// The trips, and the names of routes and services, which later tables number on.
    pub fn into_parts(self) -> TripParts
        ensures trips { result.trips ≡ self.rows }
        ensures routes { names_of result.routes ≡ self.routes }
        ensures services { names_of result.services ≡ self.services }
        ensures routes_numbered { IsNumbered result.routes }
        ensures services_numbered { IsNumbered result.services }
    {
        TripParts {
            trips: Rows::build(self.table.rows),
            routes: self.table.routes,
            services: self.table.services,
        }
    }
}

/// The trips of a feed (GTFS Schedule, trips.txt), or the first fault in its table, by the list of
/// all records of the text: DuplicateKey for a second row of a trip_id.
pub(crate) fn read_trips(alloc: Global, text: &[u8]) -> Result<Trips, TableError>
    requires small { IsSmall text.now }
    ensures size { IfOk result (λ trips. GrowsByTable 0 (trips_size trips)) }
    ensures trips { (all : List (List (List ℕ))) → AreRecordsOf text.now all
        → Gives (λ trips. trips) result (trips_of all) }
{
    let needed = [Column::RouteId, Column::ServiceId, Column::TripId];
    let mut table = TripTable {
        rows: Vec::new(alloc),
        ids: Ids::new(alloc),
        routes: Numbering::new(alloc),
        services: Numbering::new(alloc),
    };
    build_table(alloc, text, &needed, &[], &mut table)?;
    Ok(Trips { table })
}
