//! The index of live events, made from the trains and kept in step with them.

ghost use Rattle.std.specs.Prelude.{◌≡◌, ◌+◌, ◌++◌, ◌<◌, ◌^◌, [], ◌∷◌, All, IfOk, length};
ghost use Rattle.delay_model.specs.Effect.{events_between, stretch};
ghost use Rattle.delay_model.specs.Events.{events, train_events};
ghost use Rattle.edge_rules.specs.Inside.{HasOwnLabels};
ghost use Rattle.edge_rules.specs.Indexing.{AreNew, AreThere, IsIndexOf, entries_of, entry_of};
ghost use Rattle.edge_rules.specs.Indexing.{new_entries, with_entries, without_entries};

use delay_model::state::Event;
use mt_base::index_entries::Entry;
use mt_base::keys::Node;
use mt_base::memory::OutOfMemory;
use mt_base::new_calls::NewCall;
use mt_base::numbers::{Label, TrainNo};
use station_index::StationIndex;
use std::alloc::{AllocError, Global};
use train_nodes::Trains;

/// The index of the live events of these trains, with room for those of all new calls. More than
/// 2^32 - 1 of either are answered as want of memory.
#[tactic(auto, using(crate::proofs::InsideLemmas::indexing))]
pub(crate) fn index_of(alloc: Global, trains: &Trains) -> Result<StationIndex, OutOfMemory>
    requires { All HasOwnLabels trains.now.trains }
    ensures { IfOk result (IsIndexOf trains.now) }
{
    let Some(room) = trains.spare_calls().checked_mul(2) else {
        return Err(AllocError);
    };
    let entries = list_all(alloc, trains)?;
    StationIndex::build(alloc, entries, room)
}

/// How many live events there are. More than 2^32 - 1 are answered as want of memory.
#[tactic(auto, using(crate::proofs::InsideLemmas::indexing), unfolding(delay_model::specs::Events::events))]
fn count_all(trains: &Trains) -> Result<u32, OutOfMemory>
    ensures { IfOk result (λ count. count ≡ length (entries_of (events trains.now))) }
{
    let mut count = 0;
    for number in 0..trains.count() {
        count = count_more(trains, TrainNo::new(number), count)?;
    }
    Ok(count)
}

/// The count and the number of a train's live events.
fn count_more(trains: &Trains, t: TrainNo, count: u32) -> Result<u32, OutOfMemory>
    ensures { IfOk result (λ sum.
        sum ≡ count + length (entries_of (train_events trains.now t))) }
{
    let mut sum = count;
    for event in trains.events(t) {
        if event.live {
            let Some(more) = sum.checked_add(1) else {
                return Err(AllocError);
            };
            sum = more;
        }
    }
    Ok(sum)
}

/// The entries of all live events, fewer than 2^32.
#[tactic(auto, using(crate::proofs::InsideLemmas::indexing), unfolding(delay_model::specs::Events::events))]
fn list_all(alloc: Global, trains: &Trains) -> Result<Vec<Entry>, OutOfMemory>
    ensures entries { IfOk result (λ list. list.items ≡ entries_of (events trains.now)) }
    ensures few { IfOk result (λ list. length list.items < 2 ^ 32) }
{
    let count = count_all(trains)?;
    let mut list = Vec::with_capacity(alloc, count as usize)?;
    for number in 0..trains.count() {
        list_more(&mut list, trains, TrainNo::new(number))?;
    }
    Ok(list)
}

/// Appends the entries of a train's live events.
fn list_more(list: &mut Vec<Entry>, trains: &Trains, t: TrainNo) -> Result<(), OutOfMemory>
    ensures { IfOk result (λ done.
        list.new.items ≡ list.old.items ++ entries_of (train_events trains.now t)) }
{
    for event in trains.events(t) {
        if event.live {
            list.push(entry_of(&event))?;
        }
    }
    Ok(())
}

/// The entry of an event.
fn entry_of(event: &Event) -> Entry
    ensures { result ≡ entry_of event.now }
{
    let node = event.key.node();
    Entry {
        stop: event.stop,
        dep: node.dep,
        time: event.key.time,
        node,
    }
}

/// Takes the entry of an event out, if the event is live.
fn remove_live(index: &mut StationIndex, event: &Event)
    requires { AreThere (entries_of (event.now ∷ [])) index.old }
    ensures { index.new ≡ without_entries (entries_of (event.now ∷ [])) index.old }
{
    if !event.live {
        return;
    }
    index.remove(event.stop, event.key.time, event.key.node());
}

/// Puts the entry of an event in, if the event is live.
fn insert_live(index: &mut StationIndex, event: &Event)
    requires { AreNew (entries_of (event.now ∷ [])) index.old }
    ensures { index.new ≡ with_entries (entries_of (event.now ∷ [])) index.old }
{
    if event.live {
        index.insert(event.stop, event.key.time, event.key.node());
    }
}

/// Takes out the entries of the live events of a train from the departure of one call to the
/// arrival of a later one.
pub(crate) fn remove_stretch(
    index: &mut StationIndex,
    trains: &Trains,
    t: TrainNo,
    from: Label,
    to: Label,
)
    requires { AreThere (entries_of (stretch trains.now t from to)) index.old }
    ensures { index.new ≡ without_entries (entries_of (stretch trains.now t from to)) index.old }
{
    let departure = Node::departure(t, from);
    let arrival = Node::arrival(t, to);
    let mut departed = false;
    for event in trains.events_from(t, from) {
        let node = event.key.node();
        departed = departed || node.is_same(&departure);
        if departed {
            remove_live(index, &event);
            if node.is_same(&arrival) {
                return;
            }
        }
    }
}

/// Takes out the entries of the live events of the calls strictly between two calls of a train.
#[tactic(auto, using(crate::proofs::InsideLemmas::indexing))]
pub(crate) fn remove_between(
    index: &mut StationIndex,
    trains: &Trains,
    t: TrainNo,
    from: Label,
    to: Label,
)
    requires { AreThere (entries_of (events_between trains.now t from to)) index.old }
    ensures { index.new
        ≡ without_entries (entries_of (events_between trains.now t from to)) index.old }
{
    let departure = Node::departure(t, from);
    let arrival = Node::arrival(t, to);
    let mut departed = false;
    for event in trains.events_from(t, from) {
        let node = event.key.node();
        if departed {
            if node.is_same(&arrival) {
                return;
            }
            remove_live(index, &event);
        }
        departed = departed || node.is_same(&departure);
    }
}

/// Puts in the entries of new calls of a train, which are labelled from `first` on.
pub(crate) fn insert_calls(index: &mut StationIndex, t: TrainNo, first: u32, calls: &[NewCall])
    requires labels { first + length calls.now < 2 ^ 32 }
    requires new { AreNew (new_entries t first calls.now) index.old }
    ensures { index.new ≡ with_entries (new_entries t first calls.now) index.old }
{
    let mut label = first;
    for call in calls {
        index.insert(call.stop, call.arr, Node::arrival(t, Label::new(label)));
        index.insert(call.stop, call.dep, Node::departure(t, Label::new(label)));
        label += 1;
    }
}

/// Puts in the entries of a train's live events.
pub(crate) fn insert_train(index: &mut StationIndex, trains: &Trains, t: TrainNo)
    requires { AreNew (entries_of (train_events trains.now t)) index.old }
    ensures { index.new ≡ with_entries (entries_of (train_events trains.now t)) index.old }
{
    for event in trains.events(t) {
        insert_live(index, &event);
    }
}
