//! What edges from events whose times changed ask of events that are marked.

ghost use Rattle.std.specs.Prelude.{◌≡◌, ◌<◌, ◌^◌, Some, None, false};
ghost use Rattle.mt_base.specs.declared.keys.Key.{Key as AKey};
ghost use Rattle.mt_base.specs.Order.{is_same};
ghost use Rattle.propagate.specs.declared.asked.Asked.{Asked as TheAsked};
ghost use Rattle.propagate.specs.Asked.{IsRaisedFrom, ask, asked_by, asked_in, entry_of};
ghost use Rattle.propagate.specs.Asked.{later_asked, slot_of};

use delay_model::state::Edge;
use edge_rules::counts;
use mt_base::keys::Key;
use mt_base::numbers::Time;

/// The latest times that edges from events that got another time ask for of the event to which they
/// lead, in seconds from the base of day 0; 0 where none of them counts.
#[derive(Clone, Copy)]
pub(crate) struct Asked {
    /// By the times that these events had.
    pub(crate) before: u32,

    /// By the times that they got.
    pub(crate) after: u32,
}

impl Asked {
    /// What one edge asks for, where the event that it leaves gets the time `is` in place of `was`.
    pub(crate) fn by(edge: &Edge, was: Time, is: Time) -> Asked
        requires { edge.now.weight < 2 ^ 24 }
        ensures { result ≡ asked_by was is edge.now }
    {
        Asked {
            before: ask(edge, was),
            after: ask(edge, is),
        }
    }

    /// The later of each of two.
    fn later(&self, other: &Asked) -> Asked
        ensures { result ≡ later_asked self.now other.now }
    {
        Asked {
            before: self.before.max(other.before),
            after: self.after.max(other.after),
        }
    }
}

/// The time that an edge asks for by the time of the event that it leaves, in seconds from the base
/// of day 0; 0 if it does not count.
fn ask(edge: &Edge, time: Time) -> u32
    requires { edge.now.weight < 2 ^ 24 }
    ensures { result ≡ ask edge.now time }
{
    let asked = time.seconds() + edge.weight;
    if counts(edge, asked) { asked } else { 0 }
}

/// What is asked of the event of a key.
#[derive(Clone, Copy)]
pub(crate) struct Entry {
    key: Key,
    asked: Asked,
}

/// What is asked of the event of a key, if a slot has that.
fn asked_in(entry: &Option<Entry>, k: &Key) -> Option<Asked>
    ensures { result ≡ asked_in entry.now k.now }
{
    match entry {
        Some(entry) if entry.key.is_same(k) => Some(entry.asked),
        _ => None,
    }
}

/// A slot in which what is asked of an event is raised. Where it has no entry it gets one if nothing
/// was asked of the event before; the entry of another event stays.
fn raised(entry: Option<Entry>, k: &Key, more: Asked, fresh: bool) -> Option<Entry>
    ensures own { (a : TheAsked) → asked_in result k.now ≡ Some a
        → IsRaisedFrom (asked_in entry k.now) fresh more a }
    ensures others { (q : AKey) → is_same k.now q ≡ false
        → asked_in result q ≡ asked_in entry q }
{
    match entry {
        Some(entry) if entry.key.is_same(k) => Some(Entry {
            key: *k,
            asked: entry.asked.later(&more),
        }),
        None if fresh => Some(Entry {
            key: *k,
            asked: more,
        }),
        _ => entry,
    }
}

/// How many slots there are.
const SLOTS: usize = 32;

/// What is asked of some of the events that are marked. Each has one slot where that may stand, by
/// its name.
#[derive(Drop)]
pub(crate) struct AskedTable {
    entries: [Option<Entry>; SLOTS],
}

/// The slot of an event.
fn slot_of(k: &Key) -> usize
    ensures slot { result ≡ slot_of k.now }
    ensures within { result < 32 }
{
    (k.train.get() as usize + k.label.get() as usize) % SLOTS
}

impl AskedTable {
    /// A table that knows of no event.
    pub(crate) fn new() -> AskedTable
        ensures { (q : AKey) → entry_of result q ≡ None }
    {
        AskedTable {
            entries: [None; SLOTS],
        }
    }

    /// Takes out what is asked of an event, if that is known.
    pub(crate) fn take(&mut self, k: &Key) -> Option<Asked>
        ensures taken { result ≡ entry_of self.old k.now }
        ensures gone { entry_of self.new k.now ≡ None }
        ensures others { (q : AKey) → is_same k.now q ≡ false
            → entry_of self.new q ≡ entry_of self.old q }
    {
        let slot = slot_of(k);
        let asked = asked_in(&self.entries[slot], k)?;
        self.entries[slot] = None;
        Some(asked)
    }

    /// Raises what is asked of an event. Where that is not known, it is known from now on if nothing
    /// was asked of the event before and its slot is free.
    pub(crate) fn raise(&mut self, k: &Key, more: Asked, fresh: bool)
        ensures own { (a : TheAsked) → entry_of self.new k.now ≡ Some a
            → IsRaisedFrom (entry_of self.old k.now) fresh more a }
        ensures others { (q : AKey) → is_same k.now q ≡ false
            → entry_of self.new q ≡ entry_of self.old q }
    {
        let slot = slot_of(k);
        self.entries[slot] = raised(self.entries[slot], k, more, fresh);
    }
}
