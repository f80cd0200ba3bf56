//! Numbers with a meaning: times, days, and the numbers of trains, stops, routes and calls.

ghost use Rattle.std.specs.Prelude.{◌≡◌, ℕ, ◌<◌, ◌^◌};

use std::marker::Model;

/// A time in seconds from the base of day 0, below 2^25.
#[derive(Clone, Copy, Debug, PartialEq, Eq, PartialOrd, Ord, Hash)]
pub struct Time {
    seconds: u32,
}

impl Model for Time {
    ghost Value = { ℕ };

    ghost view = { λ t. t.seconds };

    ghost invariant = { λ t. t.seconds < 2 ^ 25 };

    ghost inverse = { λ n. record { seconds = n } };
}

impl Time {
    /// The time so many seconds after the base of day 0.
    pub fn new(seconds: u32) -> Time
        requires { seconds < 2 ^ 25 }
        ensures { result ≡ seconds }
    {
        Time { seconds }
    }

    /// The seconds from the base of day 0.
    pub fn seconds(self) -> u32
        ensures value { result ≡ self }
        ensures small { self < 2 ^ 25 }
    {
        self.seconds
    }
}

/// A service day: 0 is the first loaded day.
#[derive(Clone, Copy, Debug, PartialEq, Eq, PartialOrd, Ord, Hash)]
pub struct Day {
    number: u32,
}

impl Model for Day {
    ghost Value = { ℕ };

    ghost view = { λ a. a.number };

    ghost inverse = { λ n. record { number = n } };
}

impl Day {
    /// The day with this number.
    pub fn new(number: u32) -> Day
        ensures { result ≡ number }
    {
        Day { number }
    }

    /// Its number.
    pub fn get(self) -> u32
        ensures { result ≡ self }
    {
        self.number
    }
}

/// The number of a train: its place among the trains, from 0.
#[derive(Clone, Copy, Debug, PartialEq, Eq, PartialOrd, Ord, Hash)]
pub struct TrainNo {
    number: u32,
}

impl Model for TrainNo {
    ghost Value = { ℕ };

    ghost view = { λ a. a.number };

    ghost inverse = { λ n. record { number = n } };
}

impl TrainNo {
    /// The train with this number.
    pub fn new(number: u32) -> TrainNo
        ensures { result ≡ number }
    {
        TrainNo { number }
    }

    /// Its number.
    pub fn get(self) -> u32
        ensures { result ≡ self }
    {
        self.number
    }
}

/// The number of a stop or station: its row in `stops.txt`, from 0.
#[derive(Clone, Copy, Debug, PartialEq, Eq, PartialOrd, Ord, Hash)]
pub struct StopNo {
    number: u32,
}

impl Model for StopNo {
    ghost Value = { ℕ };

    ghost view = { λ a. a.number };

    ghost inverse = { λ n. record { number = n } };
}

impl StopNo {
    /// The stop with this number.
    pub fn new(number: u32) -> StopNo
        ensures { result ≡ number }
    {
        StopNo { number }
    }

    /// Its number.
    pub fn get(self) -> u32
        ensures { result ≡ self }
    {
        self.number
    }
}

/// The number of a route, by first appearance in `trips.txt` and then in `waiting_rules.txt`, from
/// 0.
#[derive(Clone, Copy, Debug, PartialEq, Eq, PartialOrd, Ord, Hash)]
pub struct RouteNo {
    number: u32,
}

impl Model for RouteNo {
    ghost Value = { ℕ };

    ghost view = { λ a. a.number };

    ghost inverse = { λ n. record { number = n } };
}

impl RouteNo {
    /// The route with this number.
    pub fn new(number: u32) -> RouteNo
        ensures { result ≡ number }
    {
        RouteNo { number }
    }

    /// Its number.
    pub fn get(self) -> u32
        ensures { result ≡ self }
    {
        self.number
    }
}

/// The label of a call, by which messages name it. A train's labels are never used again.
#[derive(Clone, Copy, Debug, PartialEq, Eq, PartialOrd, Ord, Hash)]
pub struct Label {
    number: u32,
}

impl Model for Label {
    ghost Value = { ℕ };

    ghost view = { λ a. a.number };

    ghost inverse = { λ n. record { number = n } };
}

impl Label {
    /// The label with this number.
    pub fn new(number: u32) -> Label
        ensures { result ≡ number }
    {
        Label { number }
    }

    /// Its number.
    pub fn get(self) -> u32
        ensures { result ≡ self }
    {
        self.number
    }
}
