//! Cancellations and reroutings.

ghost use Rattle.std.specs.Prelude.{◌≡◌, ◌+◌, ◌-◌, ◌≤◌, true, not, length};
ghost use Rattle.std.specs.FinMap as map;
ghost use Rattle.delay_model.specs.Effect.{effect};
ghost use Rattle.delay_model.specs.Events.{calls_of};
ghost use Rattle.delay_model.specs.Refusals.{stands_before};
ghost use Rattle.delay_model.specs.declared.messages.Message.TheVariants as Message;
ghost use Rattle.call_lines.specs.Linked.{is_between};
ghost use Rattle.train_nodes.specs.Removed.{names_removed};

use crate::removed::RemovedEvents;
use crate::trains::Trains;
use call_lines::line::{renew_behind, renew_train};
use call_lines::parts::{find_part, kill, replace};
use call_lines::{Part, StoredCall};
use connection_choices::OverrideTable;
use event_numbers::Slots;
use mt_base::new_calls::NewCall;
use mt_base::numbers::{Label, TrainNo};

impl Trains {
    /// Whether both are calls of the train, and the one stands before the other.
    pub fn stands_before(&self, t: TrainNo, from: Label, to: Label) -> bool
        ensures { result ≡ stands_before from to (calls_of self.now t) }
    {
        find_part(&self.calls, &self.slots, t, from, to).is_some()
    }

    /// Cancels a train from the departure of one call to the arrival of a later one: these events
    /// no longer take place, and what was chosen for connections that name one of them goes.
    #[tactic(auto, using(crate::proofs::FoundParts::there))]
    pub fn cancel(&mut self, t: TrainNo, from: Label, to: Label)
        requires { stands_before from to (calls_of self.old t) ≡ true }
        ensures { self.new ≡ effect self.old (Message.Cancel t from to) }
    {
        let Some(part) = find_part(&self.calls, &self.slots, t, from, to) else {
            return;
        };
        let ends = Some((from, to));
        remove_overrides(&mut self.overrides, &self.calls, &self.slots, &part, ends);
        kill(&mut self.calls, &part);
        let len = self.records[t.get() as usize].len;
        renew_train(&mut self.calls, &self.slots, t, len);
    }

    /// Lets a train make the calls `via` in place of those strictly between two of its calls. The
    /// new calls get the next labels, and what was chosen for connections that name an event of the
    /// others goes.
    #[tactic(auto, using(crate::proofs::FoundParts::there))]
    pub fn reroute(&mut self, t: TrainNo, from: Label, to: Label, via: &[NewCall])
        requires stand { stands_before from to (calls_of self.old t) ≡ true }
        requires spare { length via.now ≤ self.old.spare_calls }
        ensures { self.new ≡ effect self.old (Message.Reroute t from to via.now) }
    {
        self.slots.numbers_are_lawful();
        let Some(part) = find_part(&self.calls, &self.slots, t, from, to) else {
            return;
        };
        remove_overrides(&mut self.overrides, &self.calls, &self.slots, &part, None);
        let label = self.slots.next_label(t);
        let new = via.len() as u32;
        let _ = self.slots.add_calls(t, new);
        replace(&mut self.calls, &part, label, via);
        let len = self.records[t.get() as usize].len - (part.last - part.first - 1) + new;
        self.records[t.get() as usize].len = len;
        renew_behind(&mut self.calls, &self.slots, t, len, part.first + 1);
    }
}

/// Takes back what was chosen for connections that name an event of the calls strictly within a
/// part, or one of the ends.
fn remove_overrides(
    overrides: &mut OverrideTable,
    calls: &[StoredCall],
    slots: &Slots,
    part: &Part,
    ends: Option<(Label, Label)>,
)
    ensures choices { overrides.new.choices ≡ map.retain_keys overrides.old.choices
        (λ p. not (names_removed part.now.train
        (is_between calls.now slots.now part.now.train part.now.first part.now.last) ends p)) }
    ensures spare { overrides.new.spare ≡ overrides.old.spare
        + (map.len overrides.old.choices - map.len overrides.new.choices) }
{
    overrides.remove_all(&RemovedEvents {
        train: part.train,
        calls,
        slots,
        first: part.first,
        last: part.last,
        ends,
    });
}
