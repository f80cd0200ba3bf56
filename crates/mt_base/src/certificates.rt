//! What shows to a reader who does not trust a search that its answer is right.

use crate::numbers::{Label, StopNo, Time, TrainNo};
use crate::rows::Rows;

/// A ride as a certificate names it: the train, and the calls where the passenger boards it and
/// alights from it.
#[derive(Clone, Copy, Debug, PartialEq, Eq)]
pub struct CertRide {
    /// The train.
    pub train: TrainNo,

    /// The label of the call where the passenger boards.
    pub board: Label,

    /// The label of the call where the passenger alights.
    pub alight: Label,
}

/// A stop of a certificate, with a time. In a good certificate nobody who leaves as its query asks
/// arrives there before that time, which is that of an arrival, before any change.
#[derive(Clone, Copy, Debug, PartialEq, Eq)]
pub struct Reach {
    /// The stop.
    pub stop: StopNo,

    /// The time, in seconds from the base of day 0.
    pub time: Time,
}

/// What is claimed as the answer to a query, and what shows that it is right, if it is.
#[derive(Drop)]
pub struct Cert {
    /// The arrival that is claimed to be the earliest, in seconds from the base of day 0. None
    /// where it is claimed that there is no journey.
    pub arrives: Option<Time>,

    /// The rides of a journey that is claimed to arrive then. None of them where none is claimed.
    pub rides: Rows<CertRide>,

    /// Stops by number, each with a time. In a good certificate no stop is missing where one can
    /// arrive before that.
    pub reached: Rows<Reach>,
}
