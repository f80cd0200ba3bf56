//! Calls as the timetable gives them, and as they are stored.

ghost use Rattle.std.specs.Prelude.{◌≡◌, ◌+◌, ◌<◌, ◌≤◌, ◌^◌, [], ◌∷◌, ◌++◌, true, length, map, vec_len, vec_capacity};
ghost use Rattle.delay_model.specs.Effect.{new_event, new_call};
ghost use Rattle.call_lines.specs.Loaded.{event_by_table, call_at, by_table};
ghost use Rattle.call_lines.specs.Calls.{values_of};
ghost use Rattle.call_lines.specs.Linked.{AreLaid, IsLaid};
ghost use Rattle.call_lines.specs.declared.stored_call.StoredCall.{StoredCall as AStoredCall};

use crate::stored_call::StoredCall;
use delay_model::state::{Call, EventValues};
use mt_base::new_calls::NewCall;
use mt_base::numbers::{Label, StopNo, Time, TrainNo};

/// A train's call as the timetable has it.
#[derive(Clone, Copy, Debug, PartialEq, Eq)]
pub struct TableCall {
    /// Where the train calls.
    pub stop: StopNo,

    /// The scheduled time of the arrival, in seconds from the base of day 0.
    pub arr: Time,

    /// The scheduled time of the departure, in seconds from the base of day 0.
    pub dep: Time,

    /// Whether passengers may board.
    pub board: bool,

    /// Whether passengers may alight.
    pub alight: bool,
}

fn table_event(scheduled: Time, live: bool) -> EventValues
    ensures { result ≡ event_by_table scheduled live }
{
    EventValues {
        scheduled,
        live,
        forecast: None,
        report: None,
    }
}

/// The call at a place among so many.
fn table_call_at(count: u32, place: u32, call: &TableCall) -> Call
    requires { place < count }
    ensures { result ≡ call_at count place call.now }
{
    Call {
        label: Label::new(place),
        stop: call.stop,
        arrival: table_event(call.arr, place != 0),
        departure: table_event(call.dep, place + 1 < count),
        board: call.board,
        alight: call.alight,
    }
}

/// Appends the calls of a train, labelled from 0 on, which get the slots from `first` on.
#[tactic(auto, using(crate::proofs::LoadedLemmas::pushing))]
pub fn push_calls(all: &mut Vec<StoredCall>, train: TrainNo, first: u32, calls: &[TableCall])
    requires room { vec_len all.old + length calls.now ≤ vec_capacity all.old }
    requires slots { first + length calls.now < 2 ^ 32 }
    ensures laid { AreLaid train first calls.now (length calls.now) all.old.items all.new.items }
    ensures capacity { vec_capacity all.new ≡ vec_capacity all.old }
{
    for place in 0..calls.len() {
        let call = &calls[place];
        push_linked(all, train, first, calls.len() as u32, place as u32, call);
    }
}

/// Appends the call at a place among so many of a train, linked to those beside it.
fn push_linked(
    all: &mut Vec<StoredCall>,
    train: TrainNo,
    first: u32,
    count: u32,
    place: u32,
    call: &TableCall,
)
    requires room { vec_len all.old < vec_capacity all.old }
    requires place { place < count }
    requires slots { first + count < 2 ^ 32 }
    ensures laid { (x : AStoredCall) × (all.new.items ≡ all.old.items ++ x ∷ [])
        × IsLaid train first count place (call_at count place call.now) x }
    ensures capacity { vec_capacity all.new ≡ vec_capacity all.old }
{
    let before = first + place.saturating_sub(1);
    let after = first + (place + 1).min(count - 1);
    let call = table_call_at(count, place, call);
    all.push_reserved(StoredCall::new(train, place, before, after, &call));
}

/// A call of an extra train, as the timetable would have it: passengers may board and alight.
fn extra_call(call: &NewCall) -> TableCall
    ensures { result ≡ by_table call.now }
{
    TableCall {
        stop: call.stop,
        arr: call.arr,
        dep: call.dep,
        board: true,
        alight: true,
    }
}

/// Appends the calls of an extra train, labelled from 0 on, which get the slots from `first` on.
#[tactic(auto, using(crate::proofs::LoadedLemmas::pushing))]
pub fn push_extra_calls(all: &mut Vec<StoredCall>, train: TrainNo, first: u32, calls: &[NewCall])
    requires room { vec_len all.old + length calls.now ≤ vec_capacity all.old }
    requires slots { first + length calls.now < 2 ^ 32 }
    ensures laid { AreLaid train first (map by_table calls.now)
        (length calls.now) all.old.items all.new.items }
    ensures capacity { vec_capacity all.new ≡ vec_capacity all.old }
{
    for place in 0..calls.len() {
        let call = extra_call(&calls[place]);
        push_linked(all, train, first, calls.len() as u32, place as u32, &call);
    }
}

/// A new event: live, with no forecast and no report.
fn live_event(scheduled: Time) -> EventValues
    ensures { result ≡ new_event scheduled }
{
    table_event(scheduled, true)
}

/// A call that a message makes, under a label: both of its events are live, and passengers may
/// board and alight.
pub fn new_call(label: Label, call: &NewCall) -> Call
    ensures { result ≡ new_call label call.now }
{
    Call {
        label,
        stop: call.stop,
        arrival: live_event(call.arr),
        departure: live_event(call.dep),
        board: true,
        alight: true,
    }
}

/// What is known of a call's arrival or departure.
pub(crate) fn values(call: &Call, dep: bool) -> &EventValues
    ensures { result.now ≡ values_of dep call.now }
{
    if dep { &call.departure } else { &call.arrival }
}

/// A change of what is known of an event.
#[derive(Clone, Copy, Debug)]
pub enum Edit {
    /// It is expected at a time. None takes back what was expected.
    Forecast(Option<Time>),
    /// It took place at a time. None takes back that it did.
    Report(Option<Time>),
    /// It does not take place.
    Kill,
}
