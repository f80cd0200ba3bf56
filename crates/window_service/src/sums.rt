//! Sums over replies.

ghost use Rattle.std.specs.Prelude.{◌≡◌};
ghost use Rattle.window_service.specs.Sums.{added, no_sums, reply_sums, sums_after};

use delay_report::Reply;

/// Sums over replies. A sum that would pass 2^64 - 1 stays there.
#[derive(Clone, Copy, Debug, PartialEq, Eq)]
pub struct ReplySums {
    /// How many messages were accepted.
    pub accepted: u64,

    /// The times of arrival of the journeys that were found, in seconds from the base of day 0.
    pub arrivals: u64,

    /// How many lines are bad.
    pub bad: u64,

    /// How many events the accepted messages changed.
    pub changed: u64,

    /// How many queries have a journey.
    pub found: u64,

    /// How many lines there are: each has one reply.
    pub lines: u64,

    /// How many queries were answered.
    pub queries: u64,

    /// How many messages were refused.
    pub refused: u64,
}

impl ReplySums {
    /// The sums over no replies.
    pub fn none() -> ReplySums
        ensures { result ≡ no_sums }
    {
        ReplySums {
            accepted: 0,
            arrivals: 0,
            bad: 0,
            changed: 0,
            found: 0,
            lines: 0,
            queries: 0,
            refused: 0,
        }
    }

    /// What one reply counts for.
    fn of(reply: &Reply) -> ReplySums
        ensures { result ≡ reply_sums reply.now }
    {
        let line = ReplySums {
            lines: 1,
            ..ReplySums::none()
        };
        match reply {
            Reply::Accepted { changed, .. } => ReplySums {
                accepted: 1,
                changed: *changed,
                ..line
            },
            Reply::Refused { .. } | Reply::RefusedExtra { .. } => ReplySums { refused: 1, ..line },
            Reply::Bad { .. } => ReplySums { bad: 1, ..line },
            Reply::Flush { .. } => line,
            Reply::Journey { arrives, .. } => ReplySums {
                arrivals: u64::from(arrives.seconds()),
                found: 1,
                queries: 1,
                ..line
            },
            Reply::NoJourney { .. } => ReplySums { queries: 1, ..line },
        }
    }

    /// Both sums in one.
    fn with(self, more: ReplySums) -> ReplySums
        ensures { result ≡ added self more }
    {
        ReplySums {
            accepted: self.accepted.saturating_add(more.accepted),
            arrivals: self.arrivals.saturating_add(more.arrivals),
            bad: self.bad.saturating_add(more.bad),
            changed: self.changed.saturating_add(more.changed),
            found: self.found.saturating_add(more.found),
            lines: self.lines.saturating_add(more.lines),
            queries: self.queries.saturating_add(more.queries),
            refused: self.refused.saturating_add(more.refused),
        }
    }

    /// Adds these replies.
    pub fn add(&mut self, replies: &[Reply])
        ensures { self.new ≡ sums_after self.old replies.now }
    {
        for reply in replies {
            *self = self.with(ReplySums::of(reply));
        }
    }
}
