//! Events that a message takes out of a train.

ghost use Rattle.std.specs.Prelude.{◌≡◌};
ghost use Rattle.call_lines.specs.Linked.{is_between};
ghost use Rattle.train_nodes.specs.Removed.{is_end, is_removed};

use call_lines::StoredCall;
use call_lines::line::current_slot;
use connection_choices::EventSet;
use event_numbers::Slots;
use mt_base::keys::Node;
use mt_base::numbers::{Label, TrainNo};

/// Events of a train that a message takes out: those of its calls at the places between two, and
/// where there are ends, the departure of the one and the arrival of the other.
#[derive(Clone, Copy)]
pub(crate) struct RemovedEvents<'a> {
    pub(crate) train: TrainNo,
    pub(crate) calls: &'a [StoredCall],
    pub(crate) slots: &'a Slots,
    /// The place after which the calls stand.
    pub(crate) first: u32,
    /// The place before which they stand.
    pub(crate) last: u32,
    pub(crate) ends: Option<(Label, Label)>,
}

impl EventSet for RemovedEvents<'_> {
    ghost holds = { λ s. is_removed s.train
        (is_between s.calls.now s.slots.now s.train s.first s.last) s.ends };

    fn has(&self, n: &Node) -> bool {
        n.train == self.train && (self.is_end(n) || self.is_between(n.label))
    }
}

impl RemovedEvents<'_> {
    fn is_end(&self, n: &Node) -> bool
        ensures { result ≡ is_end self.now.ends n.now }
    {
        match self.ends {
            Some((from, to)) => n.label == if n.dep { from } else { to },
            None => false,
        }
    }

    /// Whether the call of this label is one of them.
    fn is_between(&self, label: Label) -> bool
        ensures { result ≡ is_between self.now.calls.now self.now.slots.now self.now.train
            self.now.first self.now.last label }
    {
        match current_slot(self.calls, self.slots, self.train, label) {
            Some(slot) => {
                let place = self.calls[slot as usize].place();
                self.first < place && place < self.last
            }
            None => false,
        }
    }
}
