//! Queries, and the rides of the journeys that answer them.

use crate::numbers::{Label, StopNo, Time, TrainNo};
use crate::rows::Rows;

/// A passenger's wish to travel: from where, to where, and from what time on.
#[derive(Clone, Copy, Debug, PartialEq, Eq)]
pub struct Query {
    /// The stop or station where the journey begins.
    pub from_stop: StopNo,

    /// The stop or station where it ends.
    pub to_stop: StopNo,

    /// The time from which the passenger can leave.
    pub time: Time,
}

/// A ride on one train: where and when the passenger boards it and alights from it.
#[derive(Clone, Copy, Debug, PartialEq, Eq)]
pub struct PlanRide {
    /// The train.
    pub train: TrainNo,

    /// The label of the call where the passenger boards.
    pub board: Label,

    /// The stop of that call.
    pub board_stop: StopNo,

    /// When the train departs there.
    pub board_time: Time,

    /// The label of the call where the passenger alights.
    pub alight: Label,

    /// The stop of that call.
    pub alight_stop: StopNo,

    /// When the train arrives there.
    pub alight_time: Time,
}

/// A journey, and when it arrives.
#[derive(Drop)]
pub struct Plan {
    /// When it arrives, in seconds from the base of day 0.
    pub arrives: Time,

    /// Its rides, in their order.
    pub rides: Rows<PlanRide>,
}
