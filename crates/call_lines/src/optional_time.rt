//! A time that may be missing, in the room of a time.

ghost use Rattle.std.specs.Prelude.{◌≡◌, None};
ghost use Rattle.call_lines.specs.Linked.{time_by};

use mt_base::numbers::Time;

/// A time, or none: numbers of 2^25 and more, which no time is, stand for none.
#[derive(Clone, Copy)]
pub(crate) struct OptionalTime {
    pub(crate) seconds: u32,
}

impl OptionalTime {
    /// No time.
    pub(crate) fn none() -> OptionalTime
        ensures { time_by result ≡ None }
    {
        OptionalTime { seconds: u32::MAX }
    }

    /// This time, if it is one.
    pub(crate) fn new(time: Option<Time>) -> OptionalTime
        ensures { time_by result ≡ time }
    {
        match time {
            Some(time) => OptionalTime {
                seconds: time.seconds(),
            },
            None => OptionalTime::none(),
        }
    }

    /// The time, if there is one.
    #[inline(always)]
    pub(crate) fn get(&self) -> Option<Time>
        ensures { result ≡ time_by self.now }
    {
        if self.seconds < 1 << 25 {
            Some(Time::new(self.seconds))
        } else {
            None
        }
    }
}
