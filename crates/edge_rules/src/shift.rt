//! How an event's time changes, and which edges that leave it matter then.

ghost use Rattle.std.specs.Prelude.{◌≡◌, ◌+◌, filter, min, max};
ghost use Rattle.std.specs.Option.{option_to_list};
ghost use Rattle.edge_rules.specs.Deciding.{may_change, may_decide};

use delay_model::state::{Edge, EdgeKind};
use mt_base::numbers::Time;

/// An event's time before and after it changes, and how long trains wait at most, in seconds.
#[derive(Clone, Copy)]
pub(crate) struct Shift {
    pub(crate) was: Time,
    pub(crate) is: Time,
    pub(crate) longest_wait: u32,
}

impl Shift {
    /// The earlier of the two times, in seconds.
    pub(crate) fn earlier(&self) -> u32
        ensures { result ≡ min self.now.was self.now.is }
    {
        self.was.seconds().min(self.is.seconds())
    }

    /// The later of the two times, in seconds.
    pub(crate) fn later(&self) -> u32
        ensures { result ≡ max self.now.was self.now.is }
    {
        self.was.seconds().max(self.is.seconds())
    }

    /// The edge from the event, if there is one and it may change the time of the event to which it
    /// leads.
    #[inline(always)]
    pub(crate) fn changing(&self, edge: Option<Edge>) -> Option<Edge>
        ensures { option_to_list result
            ≡ filter (may_change self.now.was self.now.is) (option_to_list edge) }
    {
        match edge {
            Some(edge) if self.may_change(&edge) => Some(edge),
            _ => None,
        }
    }

    /// Whether an edge from the event may change the time of the event to which it leads.
    fn may_change(&self, edge: &Edge) -> bool
        ensures { result ≡ may_change self.now.was self.now.is edge.now }
    {
        may_decide(edge, self.was) || may_decide(edge, self.is)
    }
}

/// Whether an edge may decide the time of the event to which it leads, if the event that it leaves
/// has this time.
fn may_decide(edge: &Edge, time: Time) -> bool
    ensures { result ≡ may_decide edge.now.kind edge.now.to.time (time + edge.now.weight) }
{
    let asked = u64::from(time.seconds()) + u64::from(edge.weight);
    let scheduled = u64::from(edge.to.time.seconds());
    match edge.kind {
        EdgeKind::Train | EdgeKind::Kept => true,
        EdgeKind::Planned { wait } => scheduled < asked && asked <= scheduled + u64::from(wait),
    }
}
