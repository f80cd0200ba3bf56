//! A change with its seconds.

use mt_base::numbers::StopNo;

/// A stop that a change joins to another, and the seconds that the change takes.
#[derive(Clone, Copy, Debug, PartialEq, Eq)]
pub struct Change {
    /// The stop or platform at the other end.
    pub stop: StopNo,
    /// How long the change takes.
    pub seconds: u32,
}
