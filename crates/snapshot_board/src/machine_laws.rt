//! What holds over every list of events, and how a board takes the steps of the machine.

ghost use Rattle.std.specs.Prelude.{◌≡◌, ◌≤◌, ◌<◌, ℕ, true, List, [], ◌∷◌, ◌++◌, length, All, AllPairs};
ghost use mathlib.Core.List.{IsPrefix};
ghost use Rattle.snapshot_board.specs.Knowledge.{Knowledge, IsLook, LearnsNote};
ghost use Rattle.snapshot_board.specs.Machines.{at_opening, after_event, is_step};
ghost use Rattle.snapshot_board.specs.Meetings.{newcomer};
ghost use Rattle.snapshot_board.specs.Runs.{accepted, after_events, posts_in, looks_of, learns_of, IsWithin};
ghost use Rattle.snapshot_board.specs.declared.event.Event.{Event as AnEvent};
ghost use Rattle.snapshot_board.specs.declared.event.Event.TheVariants.{Post, Look, Tell, Learn};
ghost use Rattle.snapshot_board.specs.Viewers.{HasViewer, HasNote, IsByOthers};

use crate::event::Event;
use crate::machine::Machine;

/// Of the accepted events: the counts of one viewer's looks do not fall, no look has a count below
/// a note that its viewer learnt before, and none has a count above the posts made before it.
pub fn looks_are_in_order<M>(events: &[Event<M>], viewers: u32)
    ensures rise { (v : ℕ)
        → AllPairs (λ a b. a ≤ b) (looks_of v (accepted (at_opening viewers) events.now)) }
    ensures learnt { (before after : List (AnEvent M)) (v count : ℕ)
        → accepted (at_opening viewers) events.now ≡ before ++ Look v count ∷ after
        → All (λ n. n ≤ count) (learns_of v before) }
    ensures posted { (before after : List (AnEvent M)) (v count : ℕ)
        → accepted (at_opening viewers) events.now ≡ before ++ Look v count ∷ after
        → count ≤ posts_in before }
{}

/// After any events, no note and no viewer counts more than was posted.
pub fn counts_are_within_the_posts<M>(events: &[Event<M>], viewers: u32)
    ensures { IsWithin (after_events (at_opening viewers) events.now) }
{}

/// What the viewers of a board do are steps of the machine, and the machine counts what they know:
/// a look at a beginning of what is posted, and learning a note of the machine.
pub fn viewers_take_steps<M>(machine: &Machine<M>)
    ensures looks { (v : ℕ) (old new : Knowledge M) → HasViewer machine.now v old
        → IsLook old new → IsPrefix new.seen machine.now.posted
        → (is_step machine.now (Look v (length new.seen)) ≡ true)
        × HasViewer (after_event machine.now (Look v (length new.seen))) v new }
    ensures learns { (v note : ℕ) (told : List M) (old new : Knowledge M)
        → HasViewer machine.now v old → HasNote machine.now note told → LearnsNote told old new
        → (is_step machine.now (Learn v note) ≡ true)
        × HasViewer (after_event machine.now (Learn v note)) v new }
{}

/// At the opening each viewer of the machine is a newcomer. A post makes what is posted longer by
/// its message, and a note that is told is of all that is posted. Over each event all notes stay,
/// and the viewers whose step it is not.
pub fn viewers_and_notes_stay<M>(machine: &Machine<M>, viewers: u32)
    ensures opening { (v : ℕ) → v < viewers → HasViewer {M = M} (at_opening viewers) v newcomer }
    ensures post { (m : M)
        → (after_event machine.now (Post m)).posted ≡ machine.now.posted ++ m ∷ [] }
    ensures note { HasNote (after_event machine.now Tell) (length machine.now.notes)
        machine.now.posted }
    ensures viewers { (e : AnEvent M) (v : ℕ) (known : Knowledge M)
        → HasViewer machine.now v known → IsByOthers v e
        → HasViewer (after_event machine.now e) v known }
    ensures notes { (e : AnEvent M) (note : ℕ) (told : List M)
        → HasNote machine.now note told → HasNote (after_event machine.now e) note told }
{}
