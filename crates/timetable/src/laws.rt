//! Laws of timetables.

ghost use Rattle.std.specs.Prelude.{◌≡◌, ◌≤◌, true, All, Contains, length};
ghost use Rattle.std.specs.List.{AllPairs};
ghost use Rattle.mt_base.specs.Order.{node_of};
ghost use Rattle.delay_model.specs.declared.state.Event.{Event as AnEvent};
ghost use Rattle.delay_model.specs.Events.{events};
ghost use Rattle.delay_model.specs.Timing.{event_time};
ghost use Rattle.delay_model.specs.Touched.{changed};
ghost use Rattle.delay_model.specs.Valid.{IsValid};
ghost use Rattle.timetable.specs.Changed.{changed_nodes, AreInOrder, IsChangedEvent};
ghost use Rattle.timetable.specs.Departures.{departing, departures_from, leaves_before, IsDeparture};
ghost use Rattle.timetable.specs.LiveTimes.{live_time};
ghost use Rattle.timetable.specs.TimetableState.{state_after};

use crate::timetable::Timetable;
use delay_model::network::Network;
use delay_model::state::State;
use mt_base::keys::Node;
use mt_base::numbers::Time;
use std::sync::ledger::Ledger;
use train_nodes::{Msg, Steps};

/// After every step the time of each live event is that of the definition, over the state that the
/// message leaves.
pub fn time_after_a_step<L: Ledger>(
    timetable: &mut Timetable,
    m: &Msg,
    n: Node,
    steps: &mut Steps<L>,
) -> Option<Time>
    ensures { result ≡ live_time timetable.old.network
        (state_after timetable.old.network timetable.old.state m.now) n }
{
    let _ = timetable.step(m, steps);
    timetable.time(n, steps)
}

/// The events that a timetable lists as changed are those that the model calls changed: each of
/// them, no others, and as many. First come those that are no longer live, in the order of the
/// trains, and then, in the order of their keys, those that are live only now or have another time.
pub fn changed_events_are_listed(nw: &Network, old: &State, new: &State)
    ensures each { (v : AnEvent) → Contains (changed nw.now old.now new.now) v
        → Contains (changed_nodes nw.now old.now new.now) (node_of v.key) }
    ensures only { All (IsChangedEvent nw.now old.now new.now)
        (changed_nodes nw.now old.now new.now) }
    ensures count { length (changed_nodes nw.now old.now new.now)
        ≡ length (changed nw.now old.now new.now) }
    ensures order { IsValid nw.now new.now
        → AreInOrder nw.now old.now new.now (changed_nodes nw.now old.now new.now) }
{}

/// The departures from a time on are the live departures not before it, each at its event's time,
/// and each is before those after it.
pub fn departures_are_listed(timetable: &Timetable, from: Time)
    ensures each { (v : AnEvent) → Contains (events timetable.now.state) v → v.live ≡ true
        → v.key.dep ≡ true → from ≤ event_time timetable.now.network timetable.now.state v.key
        → Contains (departures_from timetable.now.network timetable.now.state from)
        (departing timetable.now.network timetable.now.state v.key) }
    ensures only { All (IsDeparture timetable.now.network timetable.now.state)
        (departures_from timetable.now.network timetable.now.state from) }
    ensures later { All (λ d. from ≤ d.time)
        (departures_from timetable.now.network timetable.now.state from) }
    ensures ascends { AllPairs (λ a b. leaves_before a b ≡ true)
        (departures_from timetable.now.network timetable.now.state from) }
{
    timetable.state_is_valid();
}
