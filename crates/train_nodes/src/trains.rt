//! All trains, whose calls stand in one arena.

ghost use Rattle.std.specs.Prelude.{◌≡◌, ◌↔◌, ◌+◌, ◌-◌, ◌<◌, ◌≤◌, ◌^◌, [], false, IsTrue, IfOk, Contains, Some, None, length, map, nat_eq, slice_get, All};
ghost use Rattle.std.specs.Option.{option_map, option_copied};
ghost use Rattle.std.specs.List.{AllPairs};
ghost use Rattle.std.specs.FinMap as finmap;
ghost use Rattle.std.specs.declared.cmp.Ordering.TheVariants.{Less};
ghost use Rattle.mt_base.specs.declared.keys.Node.{Node as ANode};
ghost use Rattle.mt_base.specs.Order.{node_cmp};
ghost use Rattle.delay_model.specs.declared.state.Call.{Call as ACall};
ghost use Rattle.delay_model.specs.declared.state.Train.{Train as ATrain};
ghost use Rattle.delay_model.specs.declared.state.Event.{Event as AnEvent};
ghost use Rattle.delay_model.specs.Cuts as Cuts;
ghost use Rattle.delay_model.specs.Events.{calls_of, train_events, event_named, is_event, is_live};
ghost use Rattle.delay_model.specs.Effect.{effect, with_override, without_override, has_override};
ghost use Rattle.delay_model.specs.Effect.{node_at};
ghost use Rattle.delay_model.specs.Valid.{HasDistinctLabels};
ghost use Rattle.delay_model.specs.declared.messages.Message.TheVariants as Message;
ghost use Rattle.delay_model.specs.Overrides.{connection};
ghost use Rattle.call_lines.specs.Calls.{call_named, has_call, has_event, first_label, label_after, label_before};
ghost use Rattle.connection_choices.specs.Keeps.{IsKept, kept_from, kept_into};
ghost use Rattle.train_nodes.specs.Reports.{report_after};
ghost use Rattle.call_lines.specs.Linked.{call_of};
ghost use Rattle.call_lines.specs.Loaded.{loaded_train, with_train, DoNotFall};
ghost use Rattle.event_numbers.specs.Times.{AreSized};

use crate::train_records::TrainRecord;
use call_lines::calls::{push_calls, push_extra_calls};
use call_lines::events::stored_event;
use call_lines::line::current_slot;
use call_lines::{StoredCall, TableCall, TrainEvents};
use connection_choices::override_table::connection;
use connection_choices::{Keeps, OverrideTable};
use delay_model::overrides::Override;
use delay_model::state::Event;
use event_numbers::{NodeTimes, Slots};
use mt_base::keys::{Key, Node};
use mt_base::memory::{OutOfMemory, copy_with_room};
use mt_base::new_calls::NewCall;
use mt_base::numbers::{Day, Label, RouteNo, StopNo, Time, TrainNo};
use std::alloc::Global;
use std::marker::Model;

/// The trains with their calls and the values of their events, the overrides, and how much room is
/// left. All memory is taken when they are made: the calls of all trains lie in one arena, in slots
/// that are neither moved nor used again.
#[derive(Drop)]
pub struct Trains {
    pub(crate) records: Vec<TrainRecord>,
    pub(crate) calls: Vec<StoredCall>,
    pub(crate) slots: Slots,
    pub(crate) overrides: OverrideTable,
}

impl Model for Trains {
    ghost use Rattle.delay_model.specs.declared.state.State.{State};
    ghost use Rattle.delay_model.specs.contracts.state.State.{the_row};

    ghost Value = { State };

    ghost coded = { the_row.coded };

    ghost use Rattle.train_nodes.specs.Stored.{seen, IsStored};

    ghost view = { seen };

    ghost invariant = { IsStored };
}

#[tactic(auto, using(crate::proofs::ReadLemmas::look_ups))]
impl Trains {
    /// No trains, with room for so many trains, calls of all trains together, and overrides.
    /// `OutOfMemory` where there is no memory, and for 2^31 calls or more, so that each new call
    /// has a label.
    pub fn with_room(
        alloc: Global,
        trains: u32,
        calls: u32,
        overrides: u32,
    ) -> Result<Trains, OutOfMemory>
        ensures { IfOk result (λ r. r ≡ record {
          trains = [];
          overrides = finmap.empty;
          spare_trains = trains;
          spare_calls = calls;
          spare_overrides = overrides;
        }) }
    {
        let slots = Slots::with_room(alloc, trains, calls)?;
        Ok(Trains {
            records: Vec::with_capacity(alloc, trains as usize)?,
            calls: Vec::with_capacity(alloc, calls as usize)?,
            slots,
            overrides: OverrideTable::with_room(alloc, overrides)?,
        })
    }

    /// The same trains once more, with the same room. `OutOfMemory` where there is no memory.
    pub fn copy(&self, alloc: Global) -> Result<Trains, OutOfMemory>
        ensures { IfOk result (λ copy. copy ≡ self.now) }
    {
        self.slots.numbers_are_lawful();
        Ok(Trains {
            records: copy_with_room(alloc, self.records.as_slice(), self.slots.spare_trains())?,
            calls: copy_with_room(alloc, self.calls.as_slice(), self.slots.spare_calls())?,
            slots: self.slots.copy(alloc)?,
            overrides: self.overrides.copy(alloc)?,
        })
    }

    /// Times for the events of these trains, 2^25 - 1 for each, which no settled event has; with
    /// room for those of spare trains and calls. `OutOfMemory` where there is no memory.
    pub fn blank_times(&self, alloc: Global) -> Result<NodeTimes, OutOfMemory>
        ensures sized { IfOk result (λ times.
            AreSized (map (λ (t : ATrain). t.next_label) self.now.trains) times) }
        ensures trains { IfOk result (λ times. times.spare_trains ≡ self.now.spare_trains) }
        ensures calls { IfOk result (λ times. times.spare_calls ≡ self.now.spare_calls) }
    {
        NodeTimes::blank(alloc, &self.slots)
    }

    /// Appends a train of the timetable, and gives its number. It takes no memory.
    pub fn push_train(&mut self, day: Day, route: RouteNo, calls: &[TableCall]) -> TrainNo
        requires train_spare { 0 < self.old.spare_trains }
        requires calls_spare { length calls.now ≤ self.old.spare_calls }
        requires two_calls { 2 ≤ length calls.now }
        requires in_order { DoNotFall calls.now }
        ensures number { result ≡ length self.old.trains }
        ensures train { self.new ≡ with_train (loaded_train day route calls.now) self.old }
    {
        self.slots.numbers_are_lawful();
        let number = TrainNo::new(self.count());
        let len = calls.len() as u32;
        let first = self.slots.push_train(len);
        push_calls(&mut self.calls, number, first, calls);
        self.records.push_reserved(TrainRecord { day, route, len });
        number
    }

    /// One more train, after all others, and its number. It takes no memory.
    pub fn add_train(&mut self, day: Day, route: RouteNo, calls: &[NewCall]) -> TrainNo
        requires train_spare { 0 < self.old.spare_trains }
        requires calls_spare { length calls.now ≤ self.old.spare_calls }
        requires two_calls { 2 ≤ length calls.now }
        ensures number { result ≡ length self.old.trains }
        ensures train { self.new ≡ effect self.old
            (Message.Extra (length self.old.trains) day route calls.now) }
    {
        self.slots.numbers_are_lawful();
        let number = TrainNo::new(self.count());
        let len = calls.len() as u32;
        let first = self.slots.push_train(len);
        push_extra_calls(&mut self.calls, number, first, calls);
        self.records.push_reserved(TrainRecord { day, route, len });
        number
    }

    /// How many more trains there is room for.
    pub fn spare_trains(&self) -> u32
        ensures { result ≡ self.now.spare_trains }
    {
        self.slots.spare_trains()
    }

    /// How many more calls there is room for, of all trains together.
    pub fn spare_calls(&self) -> u32
        ensures { result ≡ self.now.spare_calls }
    {
        self.slots.spare_calls()
    }

    /// How many more overrides there is room for.
    pub fn spare_overrides(&self) -> u32
        ensures { result ≡ self.now.spare_overrides }
    {
        self.overrides.spare()
    }

    /// How many trains there are. They are numbered from 0.
    pub fn count(&self) -> u32
        ensures { result ≡ length self.now.trains }
    {
        self.slots.count()
    }

    /// Whether the train is there and has a call with this label.
    pub fn has(&self, t: TrainNo, l: Label) -> bool
        ensures { result ≡ has_call self.now t l }
    {
        self.find_call(t, l).is_some()
    }

    /// Whether the event is there and takes place.
    #[inline(always)]
    pub fn live(&self, n: Node) -> bool
        ensures { result ≡ is_live self.now n }
    {
        match self.find_call(n.train, n.label) {
            Some(call) => call.is_live(n.dep),
            None => false,
        }
    }

    /// The service day of a train.
    pub fn day(&self, t: TrainNo) -> Day
        requires { t < length self.now.trains }
        ensures { option_map (λ (train : ATrain). train.day) (slice_get self.now.trains t)
            ≡ Some result }
    {
        self.records[t.get() as usize].day
    }

    /// The route of a train.
    #[inline(always)]
    pub fn route(&self, t: TrainNo) -> RouteNo
        requires { t < length self.now.trains }
        ensures { option_map (λ (train : ATrain). train.route) (slice_get self.now.trains t)
            ≡ Some result }
    {
        self.records[t.get() as usize].route
    }

    /// The label of the next call that a rerouting of the train makes.
    pub fn next_label(&self, t: TrainNo) -> Label
        requires { t < length self.now.trains }
        ensures label { option_map (λ (train : ATrain). train.next_label)
            (slice_get self.now.trains t) ≡ Some result }
        ensures small { result < 2 ^ 31 }
    {
        self.slots.next_label(t)
    }

    /// The label of a train's first call.
    pub fn first_call(&self, t: TrainNo) -> Label
        requires { t < length self.now.trains }
        ensures { first_label (calls_of self.now t) ≡ Some result }
    {
        // The first call is the one that the train was loaded with first: no rerouting takes it
        // out.
        let _ = &self.records;
        let _ = t;
        Label::new(0)
    }

    /// The label of the call after this one. None exactly at the last call.
    pub fn next_call(&self, t: TrainNo, l: Label) -> Option<Label>
        requires { IsTrue (has_call self.now t l) }
        ensures { result ≡ label_after (calls_of self.now t) l }
    {
        let slot = current_slot(&self.calls, &self.slots, t, l)?;
        let call = &self.calls[slot as usize];
        if call.place() + 1 == self.records[t.get() as usize].len {
            None
        } else {
            Some(self.calls[call.after() as usize].label())
        }
    }

    /// The label of the call before this one. None exactly at the first call.
    #[inline(always)]
    pub fn prev_call(&self, t: TrainNo, l: Label) -> Option<Label>
        requires { IsTrue (has_call self.now t l) }
        ensures { result ≡ label_before (calls_of self.now t) l }
    {
        let slot = current_slot(&self.calls, &self.slots, t, l)?;
        let call = &self.calls[slot as usize];
        if call.place() == 0 {
            None
        } else {
            Some(self.calls[call.before() as usize].label())
        }
    }

    /// The stop of a call.
    pub fn stop(&self, t: TrainNo, l: Label) -> StopNo
        requires { IsTrue (has_call self.now t l) }
        ensures { option_map (λ (call : ACall). call.stop) (call_named self.now t l) ≡ Some result }
    {
        self.call(t, l).stop()
    }

    /// Whether passengers may board at a call.
    pub fn boards(&self, t: TrainNo, l: Label) -> bool
        requires { IsTrue (has_call self.now t l) }
        ensures { option_map (λ (call : ACall). call.board) (call_named self.now t l)
            ≡ Some result }
    {
        self.call(t, l).boards()
    }

    /// Whether passengers may alight at a call.
    pub fn alights(&self, t: TrainNo, l: Label) -> bool
        requires { IsTrue (has_call self.now t l) }
        ensures { option_map (λ (call : ACall). call.alight) (call_named self.now t l)
            ≡ Some result }
    {
        self.call(t, l).alights()
    }

    /// The scheduled time of an event, in seconds from the base of day 0.
    pub fn scheduled(&self, n: Node) -> Time
        requires { IsTrue (has_event self.now n) }
        ensures { option_map (λ (event : AnEvent). event.key.time) (event_named self.now n)
            ≡ Some result }
    {
        self.event(n).key.time
    }

    /// The key of an event, by which events are ordered.
    pub fn key(&self, n: Node) -> Key
        requires { IsTrue (has_event self.now n) }
        ensures { option_map (λ (event : AnEvent). event.key) (event_named self.now n)
            ≡ Some result }
    {
        self.event(n).key
    }

    /// The forecast of an event, in seconds from the base of day 0. None exactly where it has none.
    pub fn forecast(&self, n: Node) -> Option<Time>
        requires { IsTrue (has_event self.now n) }
        ensures { option_map (λ (event : AnEvent). event.forecast) (event_named self.now n)
            ≡ Some result }
    {
        self.event(n).forecast
    }

    /// The report of an event, in seconds from the base of day 0. None exactly where it has none.
    pub fn report(&self, n: Node) -> Option<Time>
        requires { IsTrue (has_event self.now n) }
        ensures { option_map (λ (event : AnEvent). event.report) (event_named self.now n)
            ≡ Some result }
    {
        self.event(n).report
    }

    /// The report of the next later live event of the train that has one, in seconds from the base
    /// of day 0.
    #[inline(always)]
    pub fn next_report(&self, n: Node) -> Option<Time>
        requires { IsTrue (has_event self.now n) }
        ensures { result ≡ report_after self.now n }
    {
        let slot = current_slot(&self.calls, &self.slots, n.train, n.label)?;
        let call = &self.calls[slot as usize];
        if n.dep {
            call.next_report()
        } else {
            call.departure_report().or(call.next_report())
        }
    }

    /// The events of a train in its order, live or not: of each call the arrival and then the
    /// departure. No events where there is no such train.
    pub fn events(&self, t: TrainNo) -> TrainEvents<'_>
        ensures { result ≡ train_events self.now t }
    {
        if t.get() >= self.count() {
            return TrainEvents::none(t, &self.calls);
        }
        let row = &self.records[t.get() as usize];
        let first = self.slots.first(t);
        TrainEvents::new(t, row.route, &self.calls, first, row.len)
    }

    /// The events of a train in its order from the arrival at a call on, live or not. No events
    /// where the train has no such call.
    pub fn events_from(&self, t: TrainNo, l: Label) -> TrainEvents<'_>
        ensures { result ≡ Cuts.from (is_event (node_at t l false)) (train_events self.now t) }
    {
        let Some(slot) = current_slot(&self.calls, &self.slots, t, l) else {
            return TrainEvents::none(t, &self.calls);
        };
        let row = &self.records[t.get() as usize];
        let before = self.calls[slot as usize].place();
        TrainEvents::new(t, row.route, &self.calls, slot, row.len - before)
    }

    /// What a dispatcher chose for the connection from an arrival to a departure. None exactly
    /// where nothing was chosen.
    pub fn override_of(&self, feeder: Node, train: Node) -> Option<Override>
        ensures { result ≡ finmap.get self.now.overrides (connection feeder train) }
    {
        self.overrides.get(&connection(feeder, train))
    }

    /// Keeps or drops a connection, in place of what was chosen before. It takes no memory.
    pub fn set_override(&mut self, feeder: Node, train: Node, choice: Override)
        requires spare { has_override self.old (connection feeder train) ≡ false
            → 0 < self.old.spare_overrides }
        ensures { self.new ≡ with_override (connection feeder train) choice self.old }
    {
        self.overrides.set(connection(feeder, train), choice);
    }

    /// Takes back what was chosen for a connection.
    pub fn clear_override(&mut self, feeder: Node, train: Node)
        ensures { self.new ≡ without_override (connection feeder train) self.old }
    {
        self.overrides.remove(&connection(feeder, train));
    }

    /// The arrivals whose connection to a departure is kept, each once, in the order of events by
    /// name.
    pub fn keeps_into(&self, departure: Node) -> Keeps<'_>
        ensures kept { result ≡ kept_into self.now.overrides departure }
        ensures each { (u : ANode) → Contains result u ↔ IsKept self.now.overrides u departure }
        ensures order { AllPairs (λ a b. node_cmp a b ≡ Less) result }
    {
        self.overrides.keeps_into(&departure)
    }

    /// The departures to which the connection from an arrival is kept, each once, in the order of
    /// events by name.
    pub fn keeps_from(&self, arrival: Node) -> Keeps<'_>
        ensures kept { result ≡ kept_from self.now.overrides arrival }
        ensures each { (v : ANode) → Contains result v ↔ IsKept self.now.overrides arrival v }
        ensures order { AllPairs (λ a b. node_cmp a b ≡ Less) result }
    {
        self.overrides.keeps_from(&arrival)
    }

    /// Whether no connection is kept or dropped.
    pub fn has_no_overrides(&self) -> bool
        ensures { result ≡ nat_eq (finmap.len self.now.overrides) 0 }
    {
        self.overrides.is_empty()
    }

    /// A law: no two calls of one train have one label. The call does nothing.
    pub fn labels_are_distinct(&self)
        ensures labels { All (λ (t : ATrain). HasDistinctLabels t.calls) self.now.trains }
    {
        // A field is named, so that the check knows what holds of the rows.
        let _ = &self.records;
    }

    /// The call with this label.
    #[inline(always)]
    fn find_call(&self, t: TrainNo, l: Label) -> Option<&StoredCall>
        ensures found { option_map call_of (option_copied result) ≡ call_named self.now t l }
        ensures labels { HasDistinctLabels (calls_of self.now t) }
    {
        match current_slot(&self.calls, &self.slots, t, l) {
            Some(slot) => Some(&self.calls[slot as usize]),
            None => None,
        }
    }

    #[inline(always)]
    fn call(&self, t: TrainNo, l: Label) -> &StoredCall
        requires { IsTrue (has_call self.now t l) }
        ensures { call_named self.now t l ≡ Some (call_of result.now) }
    {
        let Some(call) = self.find_call(t, l) else {
            unreachable!();
        };
        call
    }

    /// The event of this name, live or not.
    #[inline(always)]
    pub fn event(&self, n: Node) -> Event
        requires { IsTrue (has_event self.now n) }
        ensures { event_named self.now n ≡ Some result }
    {
        stored_event(
            n.train,
            self.route(n.train),
            self.call(n.train, n.label),
            n.dep,
        )
    }
}
