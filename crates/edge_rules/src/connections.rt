//! Which events of two trains may be joined, and which connections are planned.

ghost use Rattle.std.specs.Prelude.{◌≡◌};
ghost use Rattle.delay_model.specs.Edges.{is_planned, may_connect};

use delay_model::state::Event;
use mt_base::options::Opts;

/// Whether an edge may lead from the one event to the other: from a live arrival to a live
/// departure of another train.
pub(crate) fn may_connect(from: &Event, to: &Event) -> bool
    ensures { result ≡ may_connect from.now to.now }
{
    (from.live && to.live) && (!from.key.dep && to.key.dep && from.key.train != to.key.train)
}

/// Whether a departure is planned to be reached from an arrival by a change of so many seconds,
/// with a wait of at most so many: its train waits at all, and it is scheduled when the change is
/// done or later, by at most the window. Both ends count.
pub(crate) fn is_planned(opts: &Opts, change: u32, wait: u32, from: &Event, to: &Event) -> bool
    ensures { result ≡ is_planned opts.now change wait from.now to.now }
{
    let earliest = u64::from(from.key.time.seconds()) + u64::from(change);
    let departure = u64::from(to.key.time.seconds());
    wait > 0 && earliest <= departure && departure <= earliest + u64::from(opts.window)
}
