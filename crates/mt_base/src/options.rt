//! The options of the command.

/// The options, read from the command's words.
#[derive(Clone, Copy, Debug, PartialEq, Eq)]
pub struct Opts {
    /// How much of a scheduled running time a late train can make up, in per cent: 0 to 50.
    pub slack: u32,

    /// The least time that a late train stands at a stop where it is scheduled to stand that long
    /// or longer, in seconds: 0 to 3,600.
    pub stop: u32,

    /// The change time where `transfers.txt` gives no seconds, in seconds: 1 to 3,600.
    pub change: u32,

    /// How long after the least change a departure may lie that a train is still planned to feed,
    /// in seconds: 0 to 3,600.
    pub window: u32,

    /// How many extra trains may be accepted: 0 to 2,000.
    pub spare_trains: u32,

    /// How many calls extra trains and reroutings may make: 0 to 40,000.
    pub spare_calls: u32,

    /// How many connections may be kept or dropped at a time: 0 to 100,000.
    pub overrides: u32,
}
