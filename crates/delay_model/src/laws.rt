//! Laws of the event times: what holds in every valid state, proved once for all that show or use
//! them.

ghost use Rattle.std.specs.Prelude.{◌≡◌, ◌≢◌, ℕ, ◌+◌, ◌-◌, ◌^◌, ◌<◌, ◌≤◌, true, false, All, Contains};
ghost use Rattle.std.specs.List.{AllPairs};
ghost use Rattle.mt_base.specs.declared.keys.Key.{Key as AKey};
ghost use Rattle.mt_base.specs.Order.{is_before, node_of};
ghost use Rattle.delay_model.specs.declared.state.Event.{Event as AnEvent};
ghost use Rattle.delay_model.specs.declared.state.Edge.{Edge as AnEdge};
ghost use Rattle.delay_model.specs.Events.{events};
ghost use Rattle.delay_model.specs.Edges.{edges, train_edges, DifferInEnds};
ghost use Rattle.delay_model.specs.Timing.{local, incoming, event_time, IsTiming};
ghost use Rattle.delay_model.specs.Valid.{IsTrain, IsValid};

use crate::network::Network;
use crate::state::State;

/// The event times follow the local rule at every live event: its report or, if it has none, as
/// early as its schedule, its forecast and the trains that feed it allow, but not after a later
/// report of the train. No other times of the live events follow it.
pub fn event_times_follow_the_rule(nw: &Network, st: &State)
    requires { IsValid nw.now st.now }
    ensures rule { IsTiming nw.now st.now (event_time nw.now st.now) }
    ensures unique { (t : AKey → ℕ) → IsTiming nw.now st.now t
        → (v : AnEvent) → Contains (events st.now) v → v.live ≡ true → t v.key
        ≡ event_time nw.now st.now v.key }
{}

/// The times before a point of the schedule hang on no time after it: whatever follows the local
/// rule at each live event before a key gives these their event times.
pub fn earlier_events_decide(nw: &Network, st: &State)
    requires { IsValid nw.now st.now }
    ensures { (t : AKey → ℕ) (k : AKey)
        → ((v : AnEvent) → Contains (events st.now) v → v.live ≡ true → is_before v.key k ≡ true
        → t v.key ≡ local (events st.now) (edges nw.now st.now) t v)
        → (v : AnEvent) → Contains (events st.now) v → v.live ≡ true → is_before v.key k ≡ true
        → t v.key ≡ event_time nw.now st.now v.key }
{}

/// Each event is later than its schedule by less than 2^24 seconds, which is 194 days, so each time
/// is below 2^25 - 1, the time that is kept for an event which was never settled.
pub fn event_times_are_small(nw: &Network, st: &State)
    requires { IsValid nw.now st.now }
    ensures small { All (λ v. event_time nw.now st.now v.key < 2 ^ 25 - 1) (events st.now) }
    ensures late { All (λ v. event_time nw.now st.now v.key < v.key.time + 2 ^ 24) (events st.now) }
{}

/// Along a train edge the time does not fall: a train does not leave a stop before it has arrived
/// there, nor arrive before it has left the stop before, as far as both events are live.
pub fn times_do_not_fall_along_trains(nw: &Network, st: &State)
    requires { IsValid nw.now st.now }
    ensures { All (λ e. event_time nw.now st.now e.from ≤ event_time nw.now st.now e.to)
        (train_edges nw.now.opts 0 st.now.trains) }
{}

/// Each edge leads from an event to one that stands later in the order of keys, so no chain of them
/// comes back.
pub fn a_later_key_never_feeds_an_earlier_one(nw: &Network, st: &State)
    requires { IsValid nw.now st.now }
    ensures up { All (λ e. is_before e.from e.to ≡ true) (edges nw.now st.now) }
    ensures never { (e : AnEdge) → Contains (edges nw.now st.now) e → is_before e.to e.from
        ≡ false }
{}

/// No two entries of the list of events are the same arrival or departure of a train, so that its
/// name finds an event.
pub fn keys_are_distinct(st: &State)
    requires { All IsTrain st.now.trains }
    ensures apart { AllPairs (λ u v. node_of u.key ≢ node_of v.key) (events st.now) }
    ensures known { (u v : AnEvent) → Contains (events st.now) u → Contains (events st.now) v
        → node_of u.key ≡ node_of v.key → u ≡ v }
{}

/// From one event to one event there is no more than one edge, also among those that lead to one
/// event.
pub fn no_edge_comes_twice(nw: &Network, st: &State)
    requires { All IsTrain st.now.trains }
    ensures all { AllPairs DifferInEnds (edges nw.now st.now) }
    ensures incoming { (k : AKey) → AllPairs DifferInEnds (incoming (edges nw.now st.now) k) }
{}
