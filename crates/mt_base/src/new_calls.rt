//! The calls that a message gives to an extra or a rerouted train.

use crate::numbers::{StopNo, Time};

/// A call of an extra or a rerouted train, with its scheduled times.
#[derive(Clone, Copy, Debug, PartialEq, Eq)]
pub struct NewCall {
    /// Where the train calls.
    pub stop: StopNo,

    /// The scheduled time of the arrival.
    pub arr: Time,

    /// The scheduled time of the departure.
    pub dep: Time,
}
