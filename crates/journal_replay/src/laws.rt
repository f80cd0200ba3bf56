//! Laws of journals that are read.

ghost use Rattle.std.specs.Prelude.{◌≡◌, ℕ, ◌++◌, List, [], None, Some};
ghost use mathlib.Core.List.{IsPrefix};
ghost use Rattle.information_service.specs.ServiceState.{ServiceState};
ghost use Rattle.journal_lines.specs.declared.heads.Head.{Head as AHead};
ghost use Rattle.journal_lines.specs.Lines.{text_of_head, text_of_message};
ghost use Rattle.message_reader.specs.declared.wire.Wire.{Wire as AWire};
ghost use Rattle.mt_io.specs.Lines.{pieces};
ghost use Rattle.std.specs.Prelude.{All};
ghost use Rattle.journal_replay.specs.Journals.{journal_of, line_by_line, AreTaken, CanBeHead, CanBeWritten, IsReadSoFar};
ghost use Rattle.journal_replay.specs.Reading.{JournalProgress, after_bytes, wire_of_line, nothing_read};

/// However bytes are cut into pieces, the pieces lead where the bytes lead.
pub fn pieces_are_read_as_one()
    ensures { (header : List ℕ) (p : JournalProgress) (first second : List ℕ)
        → after_bytes header (after_bytes header p first) second
        ≡ after_bytes header p (first ++ second) }
{}

/// A journal is read line by line: its lines are the pieces between its LFs, and what stands behind
/// the last LF is held.
pub fn journals_are_read_line_by_line()
    ensures { (header : List ℕ) (p : JournalProgress) (bytes : List ℕ) → p.refusal ≡ None
        → p.held ≡ [] → after_bytes header p bytes ≡ line_by_line header p (pieces bytes) }
{}

/// The line of a message that can be written is read as that message; and whatever line is read as
/// a message is that message's line, byte for byte.
pub fn lines_are_those_of_messages()
    ensures written { (w : AWire) → CanBeWritten w → wire_of_line (text_of_message w) ≡ Some w }
    ensures read { (ended : List ℕ) (w : AWire) → wire_of_line ended ≡ Some w
        → ended ≡ text_of_message w }
{}

/// Of every beginning of the journal of messages that are accepted one after the other nothing is
/// refused, and the service stands behind exactly the messages of its whole lines.
pub fn beginnings_of_journals_are_read()
    ensures { (head : AHead) (s : ServiceState) (ws : List AWire) (bytes : List ℕ)
        → CanBeHead head → All CanBeWritten ws → AreTaken s ws
        → IsPrefix bytes (journal_of head ws)
        → IsReadSoFar s ws bytes
        (after_bytes (text_of_head head) (nothing_read s) bytes) }
{}
