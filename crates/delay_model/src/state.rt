//! The state of the trains, and its events and edges as lists.

use crate::overrides::Overrides;
use mt_base::keys::Key;
use mt_base::numbers::{Day, Label, RouteNo, StopNo, Time};
use mt_base::rows::Rows;

/// What is known of one arrival or departure.
#[derive(Clone, Copy, Debug)]
pub struct EventValues {
    /// When it is scheduled.
    pub scheduled: Time,
    /// Whether it takes place. A train does not arrive at its first call nor depart from its last,
    /// and what is cancelled does not take place.
    pub live: bool,
    /// When it is expected, if a forecast says so.
    pub forecast: Option<Time>,
    /// When it took place, if a report says so.
    pub report: Option<Time>,
}

/// A train's call at a stop.
#[derive(Clone, Copy, Debug)]
pub struct Call {
    /// Its label, by which messages name it.
    pub label: Label,
    /// Where the train calls.
    pub stop: StopNo,
    /// What is known of its arrival.
    pub arrival: EventValues,
    /// What is known of its departure.
    pub departure: EventValues,
    /// Whether passengers may board.
    pub board: bool,
    /// Whether passengers may alight.
    pub alight: bool,
}

/// A train on its service day. Its number is its place among the trains.
#[derive(Drop)]
pub struct Train {
    /// Its service day.
    pub day: Day,
    /// Its route.
    pub route: RouteNo,
    /// The label of the next call that a rerouting makes.
    pub next_label: Label,
    /// Its calls, in their order.
    pub calls: Rows<Call>,
}

/// The trains, the overrides, and how much room is left for messages to come.
#[derive(Drop)]
pub struct State {
    /// The trains, by number.
    pub trains: Rows<Train>,
    /// What dispatchers chose for connections.
    pub overrides: Overrides,
    /// How many more extra trains may be accepted.
    pub spare_trains: u32,
    /// How many more calls extra trains and reroutings may make.
    pub spare_calls: u32,
    /// How many more connections may be kept or dropped.
    pub spare_overrides: u32,
}

/// An arrival or a departure of a train at a stop, as an entry of the list of all events.
#[derive(Clone, Copy, Debug)]
pub struct Event {
    /// The event's train, call and kind, and its scheduled time.
    pub key: Key,
    /// The stop of its call.
    pub stop: StopNo,
    /// The route of its train.
    pub route: RouteNo,
    /// Whether it takes place.
    pub live: bool,
    /// When it is expected, if a forecast says so.
    pub forecast: Option<Time>,
    /// When it took place, if a report says so.
    pub report: Option<Time>,
}

/// What an edge of the dependency graph stands for.
#[derive(Clone, Copy, Debug)]
pub enum EdgeKind {
    /// The train travels from one stop to the next, or stands at a stop.
    Train,
    /// The departure waits for the feeding arrival, but at most so many seconds past its schedule.
    Planned { wait: u32 },
    /// A dispatcher keeps the connection: the departure is to wait, without the limit of a waiting
    /// rule.
    Kept,
}

/// An edge of the dependency graph: it asks that `to` takes place `weight` seconds after `from` or
/// later, as far as its kind says.
#[derive(Clone, Copy, Debug)]
pub struct Edge {
    /// The event that the edge leaves.
    pub from: Key,
    /// The event to which it leads.
    pub to: Key,
    /// The least time from the one to the other, in seconds.
    pub weight: u32,
    /// What it stands for.
    pub kind: EdgeKind,
}

/// An event's time.
#[derive(Clone, Copy, Debug)]
pub struct Timed {
    /// Which event it is, with its scheduled time.
    pub key: Key,
    /// When it takes place.
    pub time: Time,
}
