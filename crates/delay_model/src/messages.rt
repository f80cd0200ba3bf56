//! Messages about trains, and why one is refused.

use mt_base::keys::Node;
use mt_base::new_calls::NewCall;
use mt_base::numbers::{Day, Label, RouteNo, Time, TrainNo};
use mt_base::rows::Rows;

/// What a message says about trains, which it names by number.
#[derive(Drop)]
pub enum Message {
    /// The event took place at this time.
    Report {
        /// The event.
        node: Node,
        /// When it took place.
        time: Time,
    },
    /// The event is expected at this time.
    Forecast {
        /// The event.
        node: Node,
        /// When it is expected.
        time: Time,
    },
    /// The event took place at this time, and not when its report says. None takes the report back.
    Correct {
        /// The event.
        node: Node,
        /// When it took place.
        time: Option<Time>,
    },
    /// The forecast of the event is taken back.
    Withdraw {
        /// The event.
        node: Node,
    },
    /// The train does not run from the departure of one call to the arrival of a later one.
    Cancel {
        /// The train.
        train: TrainNo,
        /// The label of the call from whose departure on it does not run.
        from: Label,
        /// The label of the later call, up to whose arrival it does not run.
        to: Label,
    },
    /// Between two of its calls the train makes these calls, and not those that it made so far.
    Reroute {
        /// The train.
        train: TrainNo,
        /// The label of the call before the new ones.
        from: Label,
        /// The label of the call after them.
        to: Label,
        /// The new calls, in their order.
        via: Rows<NewCall>,
    },
    /// One more train runs. Its number is the number of trains so far; with that of a train which
    /// is there it is known already.
    Extra {
        /// The number of the train.
        train: TrainNo,
        /// Its service day.
        day: Day,
        /// Its route.
        route: RouteNo,
        /// Its calls, in their order.
        calls: Rows<NewCall>,
    },
    /// The departure is to wait for the arrival, without the limit of a waiting rule.
    Keep {
        /// The arrival.
        feeder: Node,
        /// The departure.
        train: Node,
    },
    /// The departure does not wait for the arrival.
    Drop {
        /// The arrival.
        feeder: Node,
        /// The departure.
        train: Node,
    },
    /// The waiting rules hold again for the arrival and the departure.
    Rule {
        /// The arrival.
        feeder: Node,
        /// The departure.
        train: Node,
    },
}

/// What a timetable has too little room for.
#[derive(Clone, Copy, Debug, PartialEq, Eq)]
pub enum Short {
    /// Extra trains.
    Trains,
    /// Calls of extra trains and reroutings.
    Calls,
    /// Connections that are kept or dropped.
    Overrides,
}

/// Why a message is refused.
#[derive(Clone, Copy, Debug, PartialEq, Eq)]
pub enum Refusal {
    /// A train, stop, call or live event that it names is not there, the one call does not stand
    /// before the other, or the number of an extra train is too great.
    Unknown,
    /// The extra train is there already.
    Known,
    /// The two calls are of one train, or no change is possible between their stops.
    NoConnection,
    /// The event was reported at a time that the message contradicts.
    Contradiction { event: Node, reported: Time },
    /// The new timetable would have an edge to an event that is scheduled before the least time of
    /// the edge is over, or that is not after its origin in the order of keys.
    AgainstRank { from: Node, to: Node },
    /// Too little is spare.
    Full { what: Short },
    /// The event has no report to correct, or no forecast to withdraw.
    Nothing,
}
