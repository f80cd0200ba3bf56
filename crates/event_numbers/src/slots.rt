//! The slots of calls. A call's slot is a number that no other call has, and that it keeps for
//! good.

ghost use Rattle.std.specs.Prelude.{◌≡◌, ℕ, suc, ◌+◌, ◌<◌, ◌≤◌, ◌^◌, [], ◌∷◌, ◌++◌, Some, IfOk, length, slice_get};
ghost use Rattle.std.specs.Option.{option_map};
ghost use Rattle.event_numbers.specs.Numbering.{NumberedTrain, slot_of, with_numbered, with_more};
ghost use Rattle.event_numbers.specs.StoredSlots.{added_slots, IsEntry, IsJump, IsLink, AreLinked};

use mt_base::memory::{OutOfMemory, copy_with_room};
use mt_base::numbers::{Label, TrainNo};
use std::alloc::{AllocError, Global};
use std::marker::Model;

/// The slots of a train. The calls that it was loaded with have the labels 0, 1, .. and the slots
/// from `first` on.
#[derive(Clone, Copy)]
pub(crate) struct TrainSlots {
    first: u32,
    loaded: u32,
    /// How many calls reroutings have made.
    added: u32,
    /// The place of the last of these among all that reroutings made.
    last: u32,
}

/// A call that a rerouting made. Any earlier one of its train is found from it in logarithmic time.
#[derive(Clone, Copy)]
pub(crate) struct AddedCall {
    train: TrainNo,
    /// How many such calls of its train stand before it.
    nth: u32,
    slot: u32,
    /// The place of the one before it. Its own place, if it is the first one of its train.
    before: u32,
    /// The place of an earlier one. Its own place, if it is the first one of its train.
    jump: u32,
}

/// Which slot the call of a train with a label has. All memory is taken when it is made.
#[derive(Drop)]
pub struct Slots {
    records: Vec<TrainSlots>,
    added: Vec<AddedCall>,
    used: u32,
    spare_trains: u32,
    spare_calls: u32,
}

impl Model for Slots {
    ghost use Rattle.event_numbers.specs.Numbering.{Numbering};
    ghost use Rattle.event_numbers.specs.StoredSlots.{seen, AreStored};

    ghost Value = { Numbering };

    ghost view = { seen };

    ghost invariant = { AreStored };
}

/// The entry at a place.
#[inline(always)]
fn entry_at(added: &[AddedCall], place: u32) -> AddedCall
    requires { place < length added.now }
    ensures { slice_get added.now place ≡ Some result }
{
    added[place as usize]
}

/// The place to which an entry after the one at this place jumps.
#[tactic(auto, using(crate::proofs::LinkLemmas::links))]
fn jump_from(added: &[AddedCall], place: u32) -> u32
    requires linked { AreLinked added.now }
    requires there { place < length added.now }
    ensures { (t n : ℕ) → IsEntry added.now place t n → IsJump added.now result t (suc n) }
{
    let before = entry_at(added, place);
    let near = entry_at(added, before.jump);
    let far = entry_at(added, near.jump);
    // Two jumps of one length are joined to one of more than twice that length.
    if before.nth - near.nth == near.nth - far.nth {
        near.jump
    } else {
        place
    }
}

/// The entry of one more call, after all others, of the train whose row this is.
fn next_entry(added: &[AddedCall], t: TrainNo, row: &TrainSlots, slot: u32) -> AddedCall
    // the entries so far, and the last one of the train
    requires linked { AreLinked added.now }
    requires last { (n : ℕ) → row.now.added ≡ suc n → IsEntry added.now row.now.last t n }
    requires count { length (added_slots t added.now) ≡ row.now.added }
    requires small { length added.now < 2 ^ 31 }

    // the fields of the new entry, and where it leads
    ensures train { result.train ≡ t }
    ensures nth { result.nth ≡ row.now.added }
    ensures slot { result.slot ≡ slot }
    ensures link { IsLink (added.now ++ result ∷ []) result }
{
    let place = added.len() as u32;
    let first = AddedCall {
        train: t,
        nth: row.added,
        slot,
        before: place,
        jump: place,
    };
    if row.added == 0 {
        return first;
    }
    AddedCall {
        before: row.last,
        jump: jump_from(added, row.last),
        ..first
    }
}

/// An earlier entry of the same train, and none before the one wanted.
#[tactic(auto, using(crate::proofs::LinkLemmas::links, crate::proofs::LinkLemmas::before_at))]
fn earlier(added: &[AddedCall], from: &AddedCall, nth: u32) -> AddedCall
    // linked entries, and one of them after the one that is wanted
    requires linked { AreLinked added.now }
    requires link { IsLink added.now from.now }
    requires wanted { nth < from.now.nth }

    // an earlier entry of the same train, not before the one that is wanted
    ensures link { IsLink added.now result }
    ensures train { result.train ≡ from.now.train }
    ensures not_before { nth ≤ result.nth }
    ensures earlier { result.nth < from.now.nth }
{
    let jump = entry_at(added, from.jump);
    if jump.nth >= nth {
        jump
    } else {
        entry_at(added, from.before)
    }
}

/// The slot of a call that a rerouting made, by how many such calls of its train stand before it.
/// It is sought from a later one of the train.
fn find(added: &[AddedCall], from: AddedCall, nth: u32) -> u32
    requires linked { AreLinked added.now }
    requires link { IsLink added.now from }
    requires wanted { nth ≤ from.nth }
    ensures { slice_get (added_slots from.train added.now) nth ≡ Some result }
{
    let mut at = from;
    while at.nth != nth {
        at = earlier(added, &at, nth);
    }
    at.slot
}

impl Slots {
    /// No trains, with room for so many, and for so many calls of all trains together.
    /// `OutOfMemory` where there is no memory, and for 2^31 calls or more.
    pub fn with_room(alloc: Global, trains: u32, calls: u32) -> Result<Slots, OutOfMemory>
        ensures { IfOk result (λ slots.
            slots ≡ record { trains = []; used = 0; spare_trains = trains; spare_calls = calls }) }
    {
        if calls >= 1 << 31 {
            return Err(AllocError);
        }
        Ok(Slots {
            records: Vec::with_capacity(alloc, trains as usize)?,
            added: Vec::with_capacity(alloc, calls as usize)?,
            used: 0,
            spare_trains: trains,
            spare_calls: calls,
        })
    }

    /// The same slots once more, with the same room. `OutOfMemory` where there is no memory.
    pub fn copy(&self, alloc: Global) -> Result<Slots, OutOfMemory>
        ensures { IfOk result (λ copy. copy ≡ self.now) }
    {
        Ok(Slots {
            records: copy_with_room(alloc, self.records.as_slice(), self.spare_trains)?,
            added: copy_with_room(alloc, self.added.as_slice(), self.spare_calls)?,
            used: self.used,
            spare_trains: self.spare_trains,
            spare_calls: self.spare_calls,
        })
    }

    /// How many trains there are. They are numbered from 0.
    #[tactic(auto, using(crate::proofs::SlotLemmas::rows))]
    pub fn count(&self) -> u32
        ensures { result ≡ length self.now.trains }
    {
        self.records.len() as u32
    }

    /// How many slots are used. They are numbered from 0.
    pub fn used(&self) -> u32
        ensures { result ≡ self.now.used }
    {
        self.used
    }

    /// How many more trains there is room for.
    pub fn spare_trains(&self) -> u32
        ensures { result ≡ self.now.spare_trains }
    {
        self.spare_trains
    }

    /// How many more calls there is room for, of all trains together.
    pub fn spare_calls(&self) -> u32
        ensures { result ≡ self.now.spare_calls }
    {
        self.spare_calls
    }

    /// The label of the next call that a rerouting of the train makes.
    #[tactic(auto, using(crate::proofs::SlotLemmas::rows))]
    pub fn next_label(&self, t: TrainNo) -> Label
        requires { t < length self.now.trains }
        ensures label { option_map (λ (n : NumberedTrain). length n.slots)
            (slice_get self.now.trains t)
            ≡ Some result }
        ensures small { result < 2 ^ 31 }
    {
        let row = &self.records[t.get() as usize];
        Label::new(row.loaded + row.added)
    }

    /// How many calls the train was loaded with.
    #[tactic(auto, using(crate::proofs::SlotLemmas::rows))]
    pub fn loaded(&self, t: TrainNo) -> u32
        requires { t < length self.now.trains }
        ensures { option_map (λ (n : NumberedTrain). n.loaded) (slice_get self.now.trains t)
            ≡ Some result }
    {
        self.records[t.get() as usize].loaded
    }

    /// The slot of a train's first call.
    #[tactic(auto, using(crate::proofs::SlotLemmas::rows))]
    pub fn first(&self, t: TrainNo) -> u32
        requires { t < length self.now.trains }
        ensures { slot_of self.now t 0 ≡ Some result }
    {
        self.records[t.get() as usize].first
    }

    /// The slot of the call of a train with a label. None exactly where no such call was ever made.
    #[inline(always)]
    #[tactic(auto, using(crate::proofs::SlotLemmas::rows))]
    pub fn slot(&self, t: TrainNo, l: Label) -> Option<u32>
        ensures { result ≡ slot_of self.now t l }
    {
        if t.get() as usize >= self.records.len() {
            return None;
        }
        let row = &self.records[t.get() as usize];
        let label = l.get();
        if label < row.loaded {
            return Some(row.first + label);
        }
        if label >= row.loaded + row.added {
            return None;
        }
        let last = entry_at(&self.added, row.last);
        Some(find(&self.added, last, label - row.loaded))
    }

    /// One more train, which is loaded with so many calls, and the slot of the first of them. It
    /// takes no memory.
    #[tactic(auto, using(crate::proofs::StoredSlotLemmas::pushed_seen))]
    pub fn push_train(&mut self, calls: u32) -> u32
        requires train_spare { 0 < self.old.spare_trains }
        requires some { 1 ≤ calls }
        requires calls_spare { calls ≤ self.old.spare_calls }
        ensures first { result ≡ self.old.used }
        ensures slots { self.new ≡ with_numbered calls self.old }
    {
        let first = self.used;
        self.records.push_reserved(TrainSlots {
            first,
            loaded: calls,
            added: 0,
            last: 0,
        });
        self.used += calls;
        self.spare_trains -= 1;
        self.spare_calls -= calls;
        first
    }

    /// So many more calls of a train, and the slot of the first of them. It takes no memory.
    #[tactic(auto, using(crate::proofs::NumberingLemmas::more))]
    pub fn add_calls(&mut self, t: TrainNo, calls: u32) -> u32
        requires there { t < length self.old.trains }
        requires calls_spare { calls ≤ self.old.spare_calls }
        ensures first { result ≡ self.old.used }
        ensures slots { self.new ≡ with_more t calls self.old }
    {
        let first = self.used;
        for _ in 0..calls {
            self.add_call(t);
        }
        first
    }

    #[tactic(auto, using(crate::proofs::SlotLemmas::rows))]
    fn add_call(&mut self, t: TrainNo)
        requires there { t < length self.old.trains }
        requires spare { 0 < self.old.spare_calls }
        ensures { self.new ≡ with_more t 1 self.old }
    {
        let row = &mut self.records[t.get() as usize];
        let entry = next_entry(&self.added, t, row, self.used);
        row.last = self.added.len() as u32;
        row.added += 1;
        self.added.push_reserved(entry);
        self.used += 1;
        self.spare_calls -= 1;
    }

    /// A law: each slot of a call is below the number of used ones and that of no other call, and
    /// each used slot is that of a call.
    #[tactic(auto, using(crate::proofs::SlotLemmas::rows))]
    pub fn numbers_are_lawful(&self)
        ensures below { (t l s : ℕ) → slot_of self.now t l ≡ Some s → s < self.now.used }
        ensures once { (t l u m s : ℕ) → slot_of self.now t l ≡ Some s → slot_of self.now u m
            ≡ Some s
            → (t ≡ u) × (l ≡ m) }
        ensures taken { (s : ℕ) → s < self.now.used
            → (t : ℕ) × (l : ℕ) × (slot_of self.now t l ≡ Some s) }
        ensures small { self.now.used + self.now.spare_calls < 2 ^ 31 }
        ensures loaded { (t : ℕ) (n : NumberedTrain) → slice_get self.now.trains t ≡ Some n
            → (1 ≤ n.loaded) × (n.loaded ≤ length n.slots) }
        ensures records { length self.now.trains + self.now.spare_trains < 2 ^ 32 }
    {
        // A field is named, so that the check knows what holds of it.
        let _ = &self.records;
    }
}
