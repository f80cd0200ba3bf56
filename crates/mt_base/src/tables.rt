//! The tables of a feed as rows: GTFS Schedule, and this project's own `waiting_rules.txt`.

use crate::names::Name;
use crate::numbers::{RouteNo, StopNo};
use crate::places::PlaceKind;
use crate::rows::Rows;

/// Of what a feed has too many.
#[derive(Clone, Copy, Debug, PartialEq, Eq)]
pub enum What {
    /// Rows of `stops.txt`.
    Stops,

    /// Rows of `transfers.txt`.
    Transfers,

    /// Rows of `waiting_rules.txt`.
    Rules,

    /// Trains: trips on their service days.
    Trains,

    /// Events: arrivals and departures.
    Nodes,

    /// Pairs of a stop or station and a stop between which a change is possible.
    Pairs,
}

/// A row of `stops.txt`.
#[derive(Drop)]
pub struct StopRow {
    /// `stop_id`.
    pub id: Name,
    /// `location_type`.
    pub kind: PlaceKind,
    /// `parent_station`, where the row gives one.
    pub parent: Option<StopNo>,
}

/// A row of `trips.txt`.
#[derive(Drop)]
pub struct TripRow {
    /// `trip_id`.
    pub id: Name,
    /// Its route.
    pub route: RouteNo,
    /// Its service, as a row of `Tables::services`.
    pub service: u32,
}

/// A row of `stop_times.txt`.
#[derive(Clone, Copy, Debug, PartialEq, Eq)]
pub struct CallRow {
    /// Its trip, as a row of `Tables::trips`.
    pub trip: u32,
    /// Where the train calls.
    pub stop: StopNo,
    /// `stop_sequence`.
    pub seq: u32,
    /// `arrival_time`, in seconds from noon minus 12 hours of the service day.
    pub arr: Option<u32>,
    /// `departure_time`, in seconds from noon minus 12 hours of the service day.
    pub dep: Option<u32>,
    /// Whether passengers may board: unless `pickup_type` is 1.
    pub board: bool,
    /// Whether passengers may alight: unless `drop_off_type` is 1.
    pub alight: bool,
}

/// A row of `calendar.txt`.
#[derive(Clone, Copy, Debug, PartialEq, Eq)]
pub struct CalendarRow {
    /// Its service, as a row of `Tables::services`.
    pub service: u32,
    /// On which weekdays the service runs, from Monday.
    pub days: [bool; 7],
    /// `start_date` as the number YYYYMMDD.
    pub first: u32,
    /// `end_date` as the number YYYYMMDD, the last day of the service.
    pub last: u32,
}

/// A row of `calendar_dates.txt`.
#[derive(Clone, Copy, Debug, PartialEq, Eq)]
pub struct DateRow {
    /// Its service, as a row of `Tables::services`.
    pub service: u32,
    /// The date as the number YYYYMMDD.
    pub date: u32,
    /// Whether `exception_type` is 1, added, and not 2, removed.
    pub added: bool,
}

/// A row of `transfers.txt` between two locations, for all routes and trips.
#[derive(Clone, Copy, Debug, PartialEq, Eq)]
pub struct TransferRow {
    /// `from_stop_id`.
    pub from_stop: StopNo,
    /// `to_stop_id`.
    pub to_stop: StopNo,
    /// `transfer_type`.
    pub kind: u32,
    /// `min_transfer_time` in seconds.
    pub seconds: Option<u32>,
}

/// A row of `waiting_rules.txt`. An empty field, for any route or stop, is None.
#[derive(Clone, Copy, Debug, PartialEq, Eq)]
pub struct RuleRow {
    /// The route of the train that brings passengers.
    pub feeder: Option<RouteNo>,
    /// The route of the train that waits for them.
    pub connecting: Option<RouteNo>,
    /// Where it waits.
    pub stop: Option<StopNo>,
    /// The longest wait in seconds.
    pub max_wait: u32,
}

/// The tables of a feed.
#[derive(Drop)]
pub struct Tables {
    /// The stops and stations, by number.
    pub stops: Rows<StopRow>,
    /// The names of the routes, by number.
    pub routes: Rows<Name>,
    /// The names of the services, by number.
    pub services: Rows<Name>,
    /// The trips, in the order of `trips.txt`.
    pub trips: Rows<TripRow>,
    /// The calls, in the order of `stop_times.txt`.
    pub calls: Rows<CallRow>,
    /// The rows of `calendar.txt`, in their order.
    pub calendar: Rows<CalendarRow>,
    /// The rows of `calendar_dates.txt`, in their order.
    pub dates: Rows<DateRow>,
    /// The rows of `transfers.txt`, in their order.
    pub transfers: Rows<TransferRow>,
    /// The rows of `waiting_rules.txt`, in their order.
    pub rules: Rows<RuleRow>,
}
