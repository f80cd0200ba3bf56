//! What a line says, with the names that stand in it.

use mt_base::names::Name;
use mt_base::numbers::Label;
use mt_base::rows::Rows;
use train_nodes::kinds::ValueKind;

/// A call of a rerouted or an extra train.
#[derive(Drop)]
pub struct WireCall {
    /// The id of the stop.
    pub stop: Name,

    /// The scheduled arrival, in seconds on the service day.
    pub arr: u32,

    /// The scheduled departure, in seconds on the service day.
    pub dep: u32,
}

/// A call of a train.
#[derive(Drop)]
pub struct WireRef {
    /// The id of the trip.
    pub trip: Name,

    /// The service day as the number YYYYMMDD.
    pub date: u32,

    /// The label of the call.
    pub call: Label,
}

/// What is said of a connection.
#[derive(Clone, Copy, Debug, PartialEq, Eq)]
pub enum Connect {
    /// The train waits for the feeder, without a limit.
    Keep,
    /// The train does not wait for the feeder.
    Drop,
    /// The waiting rules hold again.
    Rule,
}

/// What a message says.
#[derive(Drop)]
pub enum Wire {
    /// An event took place or is expected at a time.
    Event {
        /// Whether it took place or is expected.
        kind: ValueKind,
        /// The id of the trip.
        trip: Name,
        /// The service day as the number YYYYMMDD.
        date: u32,
        /// The label of the call.
        call: Label,
        /// Whether it is the departure, and not the arrival.
        dep: bool,
        /// The time, in seconds on the service day.
        secs: u32,
    },
    /// An event took place at this time, and not when its report says.
    Correct {
        /// The id of the trip.
        trip: Name,
        /// The service day as the number YYYYMMDD.
        date: u32,
        /// The label of the call.
        call: Label,
        /// Whether it is the departure, and not the arrival.
        dep: bool,
        /// The time, in seconds on the service day. None takes the report back.
        secs: Option<u32>,
    },
    /// The forecast of an event is taken back.
    Withdraw {
        /// The id of the trip.
        trip: Name,
        /// The service day as the number YYYYMMDD.
        date: u32,
        /// The label of the call.
        call: Label,
        /// Whether it is the departure, and not the arrival.
        dep: bool,
    },
    /// A train does not run from the departure of one call to the arrival of a later one.
    Cancel {
        /// The id of the trip.
        trip: Name,
        /// The service day as the number YYYYMMDD.
        date: u32,
        /// The label of the one call.
        from: Label,
        /// The label of the later call.
        to: Label,
    },
    /// Between two of its calls a train makes these calls, and not those that it made so far.
    Reroute {
        /// The id of the trip.
        trip: Name,
        /// The service day as the number YYYYMMDD.
        date: u32,
        /// The label of the call before the new ones.
        from: Label,
        /// The label of the call after them.
        to: Label,
        /// The new calls.
        via: Rows<WireCall>,
    },
    /// One more train runs.
    Extra {
        /// The id of the new trip.
        trip: Name,
        /// The service day as the number YYYYMMDD.
        date: u32,
        /// The id of the route.
        route: Name,
        /// Its calls.
        calls: Rows<WireCall>,
    },
    /// A train waits or does not wait for a feeder: the feeder's arrival and the train's departure
    /// are named.
    Connect {
        /// What is said of it.
        kind: Connect,
        /// The call at which the feeder arrives.
        feeder: WireRef,
        /// The call at which the train departs.
        train: WireRef,
    },
}

/// The service day and the time of day of a query.
#[derive(Clone, Copy, Debug, PartialEq, Eq)]
pub struct WireTime {
    /// The service day as the number YYYYMMDD.
    pub date: u32,

    /// The time of day, in seconds on the service day.
    pub secs: u32,
}

/// A query, by names.
#[derive(Drop)]
pub struct WireQuery {
    /// Who asks.
    pub client: Name,

    /// The id of the stop or station where the journey begins.
    pub from: Name,

    /// The id of the stop or station where it ends.
    pub to: Name,

    /// From when on the passenger can leave. None where the date is no civil date, or the time of
    /// day is not H:MM:SS or HH:MM:SS.
    pub time: Option<WireTime>,
}

/// What a line says.
#[derive(Drop)]
pub enum Line {
    /// A message.
    Message(Wire),
    /// Asks for the earliest arrival.
    Query(WireQuery),
    /// Asks how many messages were accepted so far.
    Flush,
}
