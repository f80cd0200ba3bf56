//! The timetable.

ghost use Rattle.std.specs.Prelude.{◌≡◌, ◌+◌, ◌*◌, ◌≤◌, [], None, Some, IfOk, IfErr};
ghost use Rattle.std.specs.Prelude.{if◌then◌else◌, is_none, is_some, length, map, vec_capacity};
ghost use Rattle.delay_model.specs.Events.{events};
ghost use Rattle.delay_model.specs.Refusals.{refusal};
ghost use Rattle.delay_model.specs.Touched.{changed_count};
ghost use Rattle.delay_model.specs.Valid.{IsValid};
ghost use Rattle.waiting_rules.specs.WaitTable.{parent_station};
ghost use Rattle.edge_rules.specs.Inside.{network_of};
ghost use Rattle.graph_edit.specs.Values.{Gives};
ghost use Rattle.edge_rules.specs.AtStops.{AreAtStops};
ghost use Rattle.propagate.specs.Reads.{reads_of};
ghost use Rattle.timetable.specs.Departures.{departure_room};
ghost use Rattle.timetable.specs.Emptied.{AreEmpty};
ghost use Rattle.timetable.specs.LiveTimes.{live_time};
ghost use Rattle.timetable.specs.Onward.{IsDepartureOrder};
ghost use Rattle.timetable.specs.Reads.{follow_reads_of, renewed_count};
ghost use Rattle.timetable.specs.TimetableState.{stepped, taken};
ghost use Rattle.timetable.specs.Settled.{HasTimesFor, most_live};

use crate::check::check;
use crate::departures::{renew_departures, take_departures};
use crate::following::{names_from, take_times};
use crate::leaving::list_taken;
use crate::lists::{Lists, blank_parts, copy_lists};
use crate::loading::settle_all;
use crate::marking::{mark_after, mark_before};
use crate::onward::noted_arrival;
use crate::prepare::{apply, push_names};
use change_times::Changes;
use delay_model::messages::Refusal;
use dep_order::DepartureOrder;
use edge_rules::Graph;
use mt_base::keys::Node;
use mt_base::memory::OutOfMemory;
use mt_base::numbers::Time;
use mt_base::options::Opts;
use propagate::{TimeChange, settle};
use rank_order::Marks;
use std::alloc::Global;
use std::marker::{Brand, Model};
use std::sync::ledger::{Blank, Ledger};
use train_nodes::{Msg, NodeTimes, Steps, Trains};
use waiting_rules::Waits;

/// The trains with the time of each live event, how many messages were accepted, which events the
/// last of them changed, and the live departures in their order.
#[derive(Drop)]
pub struct Timetable {
    graph: Graph,
    times: NodeTimes,
    count: u64,
    /// The events that the last accepted message changed. It has room for twice as many as can be
    /// live.
    changed: Vec<Node>,
    /// The events that are to be settled: none between messages. All that can be live can be
    /// marked.
    marks: Marks,
    /// The events to which the last accepted message gave other times, with these. It has room for
    /// as many as can be live.
    time_changes: Vec<TimeChange>,
    /// The live departures. It has room for two at each call that can still be made.
    departures: DepartureOrder,
}

impl Model for Timetable {
    ghost use Rattle.timetable.specs.TimetableState.{TimetableState, timetable_state_code};

    ghost Value = { TimetableState };

    ghost coded = { timetable_state_code };

    ghost use Rattle.timetable.specs.Inside.{seen, IsTimed};

    ghost view = { seen };

    ghost invariant = { IsTimed };
}

impl Timetable {
    /// The timetable of these trains, by these change times, waiting rules and options. No message
    /// was accepted. `OutOfMemory` where there is no memory.
    pub fn build(
        alloc: Global,
        trains: Trains,
        changes: Changes,
        waits: Waits,
        opts: Opts,
    ) -> Result<Timetable, OutOfMemory>
        requires valid { IsValid (network_of changes waits opts) trains }
        requires default { changes.default ≡ opts.change }
        requires parents { waits.parents ≡ map parent_station changes.stops }
        requires at_stops { AreAtStops changes.stops trains }
        requires nodes { length (events trains) + 2 * trains.spare_calls ≤ 2097152 }
        ensures { IfOk result (λ t. t ≡ record {
          network = network_of changes waits opts;
          state = trains;
          numbers = departure_room trains;
          count = 0;
          changed = [];
        }) }
    {
        let graph = Graph::build(alloc, trains, changes, waits, opts)?;
        Timetable::over(alloc, graph)
    }

    /// The timetable over this graph. No message was accepted.
    fn over(alloc: Global, graph: Graph) -> Result<Timetable, OutOfMemory>
        requires valid { IsValid graph.network graph.state }
        requires nodes { length (events graph.state) + 2 * graph.state.spare_calls ≤ 2097152 }
        ensures { IfOk result (λ t. t ≡ record {
          network = graph.network;
          state = graph.state;
          numbers = departure_room graph.state;
          count = 0;
          changed = [];
        }) }
    {
        let (times, lists) = blank_parts(alloc, graph.trains())?;
        Timetable::load(alloc, graph, times, lists)
    }

    /// The timetable over this graph, where no time is stored yet and nothing is listed.
    fn load(
        alloc: Global,
        graph: Graph,
        times: NodeTimes,
        lists: Lists,
    ) -> Result<Timetable, OutOfMemory>
        requires valid { IsValid graph.network graph.state }
        requires has_times { HasTimesFor graph.state times }
        requires few { most_live graph.state ≤ 2097152 }
        requires empty { AreEmpty (most_live graph.state) lists }
        ensures { IfOk result (λ t. t ≡ record {
          network = graph.network;
          state = graph.state;
          numbers = departure_room graph.state;
          count = 0;
          changed = [];
        }) }
    {
        let mut times = times;
        let mut lists = lists;
        let departures = settle_all::<Brand>(
            alloc,
            &graph,
            &mut times,
            &mut lists.marks,
            &mut lists.time_changes,
            Blank::new(1),
        )?;
        Ok(Timetable {
            graph,
            times,
            count: 0,
            changed: lists.changed,
            marks: lists.marks,
            time_changes: lists.time_changes,
            departures,
        })
    }

    /// The same timetable once more, with the same room. `OutOfMemory` where there is no memory.
    pub fn copy(&self, alloc: Global) -> Result<Timetable, OutOfMemory>
        ensures { IfOk result (λ copy. copy ≡ self.now) }
    {
        let graph = self.graph.copy(alloc)?;
        let times = self.times.copy(alloc)?;
        let departures = self.departures.copy(alloc)?;
        let lists = copy_lists(alloc, &self.changed, &self.marks, &self.time_changes)?;
        Ok(Timetable {
            graph,
            times,
            count: self.count,
            changed: lists.changed,
            marks: lists.marks,
            time_changes: lists.time_changes,
            departures,
        })
    }

    /// Whether a message is accepted, or why it is refused. It changes nothing.
    pub fn check(&self, m: &Msg) -> Result<(), Refusal>
        ensures { Gives result (refusal self.now.network self.now.state m.now) }
    {
        check(&self.graph, m)
    }

    /// Takes a message, and answers how many events it changes: those that it takes away or adds,
    /// and those whose time is another after it. A message that is refused changes nothing. It
    /// takes no memory. The stored times that it reads, and those that another timetable reads to
    /// follow it, are together no more than the bound for the message.
    pub fn step<L: Ledger>(&mut self, m: &Msg, steps: &mut Steps<L>) -> Result<u64, Refusal>
        // a message that is refused
        ensures refused { IfErr result (λ r. refusal self.old.network self.old.state m.now
            ≡ Some r) }
        ensures unchanged { IfErr result (λ _. self.new ≡ self.old) }

        // a message that is accepted, and how many events it changes
        ensures accepted { IfOk result (λ _. refusal self.old.network self.old.state m.now ≡ None) }
        ensures effect { IfOk result (λ _. self.new ≡ stepped self.old m.now) }
        ensures changed { IfOk result (λ n. n ≡ changed_count self.old.network self.old.state
            m.now) }

        // the steps that are counted
        ensures cost { IfOk result (λ _. steps.new ≤ steps.old
            + reads_of self.old.network self.old.state m.now) }
        ensures both { IfOk result (λ _. steps.new
            + 2 * renewed_count self.old.network self.old.state m.now
            ≤ steps.old + reads_of self.old.network self.old.state m.now) }
        ensures no_steps { IfErr result (λ _. steps.new ≡ steps.old) }
    {
        self.check(m)?;
        Ok(self.take(m, steps))
    }

    /// Takes a message that is accepted, and answers how many events it changes: those that it
    /// takes away or adds, and those whose time is another after it. It takes no memory. The stored
    /// times that it reads, and those that another timetable reads to follow it, are together no
    /// more than the bound for the message.
    pub fn take<L: Ledger>(&mut self, m: &Msg, steps: &mut Steps<L>) -> u64
        requires accepted { refusal self.old.network self.old.state m.now ≡ None }

        // the state after it, and how many events it changes
        ensures effect { self.new ≡ stepped self.old m.now }
        ensures changed { result ≡ changed_count self.old.network self.old.state m.now }

        // the steps that are counted
        ensures cost { steps.new ≤ steps.old + reads_of self.old.network self.old.state m.now }
        ensures both { steps.new + 2 * renewed_count self.old.network self.old.state m.now
            ≤ steps.old + reads_of self.old.network self.old.state m.now }
    {
        let noted = noted_arrival(&self.departures, &self.graph, m);
        mark_before(&self.graph, m, &mut self.changed, &mut self.marks);
        take_departures(&mut self.departures, self.graph.trains(), &self.changed);
        apply(&mut self.graph, &mut self.times, &mut self.departures, m);
        mark_after(&self.graph, m, &mut self.marks);
        self.time_changes.clear();
        settle(
            &self.graph,
            &mut self.times,
            &mut self.marks,
            &mut self.time_changes,
            steps,
        );
        renew_departures(
            &mut self.departures,
            &self.graph,
            m,
            noted,
            &self.time_changes,
        );
        push_names(&mut self.changed, &self.time_changes);
        self.count = self.count.saturating_add(1);
        self.changed.len() as u64
    }

    /// Takes a message that a timetable like this one took as its last. What that one found out is
    /// taken over, and the rule is evaluated at no event. Two stored times are read, this one's and
    /// the other's, for each event that is live only after the message or has another time then;
    /// for a message that is refused none is read. It takes no memory. The message is not checked
    /// again while accepted messages can be counted.
    pub fn follow<L: Ledger>(&mut self, m: &Msg, other: &Timetable, steps: &mut Steps<L>)
        requires { other.now ≡ taken self.old m.now }
        ensures effect { self.new ≡ taken self.old m.now }

        // the steps that are counted
        ensures cost { steps.new ≡ steps.old
            + follow_reads_of self.old.network self.old.state m.now }
    {
        if self.was_taken(m, other) {
            self.follow_accepted(m, other, steps);
        }
    }

    /// Whether a timetable like this one, which was given this message as its last, took it. Its
    /// count tells, unless as many messages were accepted as can be counted: then the message is
    /// checked.
    fn was_taken(&self, m: &Msg, other: &Timetable) -> bool
        requires { other.now ≡ taken self.now m.now }
        ensures { result ≡ is_none (refusal self.now.network self.now.state m.now) }
    {
        if self.count < u64::MAX {
            other.count != self.count
        } else {
            self.check(m).is_ok()
        }
    }

    /// The same for a message that is accepted.
    fn follow_accepted<L: Ledger>(&mut self, m: &Msg, other: &Timetable, steps: &mut Steps<L>)
        requires accepted { refusal self.old.network self.old.state m.now ≡ None }
        requires stepped { other.now ≡ stepped self.old m.now }
        ensures effect { self.new ≡ stepped self.old m.now }
        ensures cost { steps.new ≡ steps.old
            + 2 * renewed_count self.old.network self.old.state m.now }
    {
        let noted = noted_arrival(&self.departures, &self.graph, m);
        list_taken(&mut self.changed, &self.graph, m);
        take_departures(&mut self.departures, self.graph.trains(), &self.changed);
        apply(&mut self.graph, &mut self.times, &mut self.departures, m);
        let first = self.changed.len();
        self.time_changes.clear();
        take_times(
            &self.graph,
            &mut self.times,
            &other.times,
            names_from(&other.changed, first),
            &mut self.time_changes,
            steps,
        );
        renew_departures(
            &mut self.departures,
            &self.graph,
            m,
            noted,
            &self.time_changes,
        );
        push_names(&mut self.changed, &self.time_changes);
        self.count = self.count.saturating_add(1);
    }

    /// The events that the last accepted message changed: in the order of the trains those that it
    /// took away, and then, in the order of their keys, those that it added or that have another
    /// time. None before the first such message.
    pub fn changed(&self) -> &[Node]
        ensures { result.now ≡ self.now.changed }
    {
        &self.changed
    }

    /// The live departures over the state as the last step left it, each with its time, its number
    /// and what its train does next.
    #[inline]
    pub fn departures(&self) -> &DepartureOrder
        ensures order { IsDepartureOrder self.now.network self.now.state result.now }
        ensures numbers { length result.now.entries ≡ self.now.numbers }
    {
        &self.departures
    }

    /// How many numbers departures can have: all numbers are below. No message changes it.
    pub fn numbers(&self) -> u32
        ensures { result ≡ self.now.numbers }
    {
        self.departures.numbers()
    }

    /// How many messages were accepted. Past 2^64 - 1 it stays there.
    pub fn count(&self) -> u64
        ensures { result ≡ self.now.count }
    {
        self.count
    }

    /// The time of an event by the definition, in seconds from the base of day 0, over the state as
    /// the last step left it. None exactly where it is not there or not live. One stored time is
    /// read where the event is live, and else none.
    pub fn time<L: Ledger>(&self, n: Node, steps: &mut Steps<L>) -> Option<Time>
        ensures time { result ≡ live_time self.now.network self.now.state n }
        ensures cost { steps.new ≡ steps.old + (if is_some result then 1 else 0) }
    {
        self.time_at(&n, steps)
    }

    fn time_at<L: Ledger>(&self, n: &Node, steps: &mut Steps<L>) -> Option<Time>
        ensures time { result ≡ live_time self.now.network self.now.state n.now }
        ensures cost { steps.new ≡ steps.old + (if is_some result then 1 else 0) }
    {
        if self.graph.trains().live(*n) {
            Some(self.times.read(*n, steps))
        } else {
            None
        }
    }

    /// The graph over the trains.
    pub fn graph(&self) -> &Graph
        ensures network { result.now.network ≡ self.now.network }
        ensures state { result.now.state ≡ self.now.state }
    {
        &self.graph
    }

    /// The state is valid.
    pub fn state_is_valid(&self)
        ensures { IsValid self.now.network self.now.state }
    {
        // A field is read, so that the check knows what the type keeps.
        let _ = &self.graph;
    }

    /// Every call of every train is at a stop or platform.
    pub fn calls_are_at_stops(&self)
        ensures { AreAtStops self.now.network.stops self.now.state }
    {
        self.graph.calls_are_at_stops();
    }
}
