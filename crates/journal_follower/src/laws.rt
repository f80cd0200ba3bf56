//! Laws of followers.

ghost use Rattle.std.specs.Prelude.{◌≡◌, ◌-◌, ℕ, [], All, List, None, Some, length, take};
ghost use Rattle.std.specs.declared.option.Option.{Option};
ghost use mathlib.Core.List.{IsPrefix};
ghost use Rattle.delay_model.specs.declared.messages.Message.{Message};
ghost use Rattle.information_service.specs.ServiceState.{ServiceState};
ghost use Rattle.journal_lines.specs.declared.heads.Head.{Head as AHead};
ghost use Rattle.journal_lines.specs.Lines.{text_of_head};
ghost use Rattle.journal_replay.specs.Journals.{journal_of, messages_in, AreTaken, CanBeHead, CanBeWritten};
ghost use Rattle.journal_replay.specs.ReaderStates.{HasRead, ReaderState};
ghost use Rattle.message_reader.specs.declared.wire.Wire.{Wire as AWire};
ghost use Rattle.query_crew.specs.Posted.{timetable_after};
ghost use Rattle.timetable.specs.TimetableState.{TimetableState};
ghost use Rattle.journal_follower.specs.Boards.{BoardState, StandsAs};
ghost use Rattle.journal_follower.specs.Following.{FollowerState, HasFollowed, IsTimetableOf, new_reader};

use journal_replay::beginnings_of_journals_are_read;

/// A follower that has read a beginning of the journal of messages that are accepted one after the
/// other, however it was cut into pieces, refuses nothing of it, and has posted exactly the
/// messages of its whole lines.
pub fn whole_journals_are_followed()
    ensures { (o : Option TimetableState) (head : AHead) (s : ServiceState) (ws : List AWire)
        (bytes : List ℕ) (begun now : FollowerState (List Message)) → CanBeHead head
        → All CanBeWritten ws → AreTaken s ws → IsPrefix bytes (journal_of head ws)
        → begun.reader ≡ new_reader (text_of_head head) → StandsAs o begun.board s []
        → HasRead (StandsAs o) begun.board begun.reader bytes now.board now.reader
        → HasFollowed o s ws bytes now }
{
    beginnings_of_journals_are_read();
}

/// Whatever a viewer of the board saw that is a beginning of what was posted, as `Within` of `meet`
/// says, is the timetable after a beginning of the journal's messages.
pub fn looks_are_beginnings_of_the_journal()
    ensures { (o : Option TimetableState) (opening : BoardState (List Message))
        (s : ServiceState) (ws : List AWire) (seen : List Message) (t : TimetableState)
        → StandsAs o opening s [] → AreTaken s ws → IsPrefix seen (messages_in s ws)
        → timetable_after o seen ≡ Some t → IsTimetableOf t s (take (length seen) ws) }
{}
