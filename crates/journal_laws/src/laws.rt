//! Laws of whole journals.

ghost use Rattle.std.specs.Prelude.{◌≡◌, ◌≤◌, ◌<◌, ◌+◌, ◌-◌, ◌++◌, ℕ, Bool, List, All, None, Ok, length};
ghost use mathlib.Core.List.{IsPrefix};
ghost use Rattle.delay_model.specs.After.{after_messages, AreAccepted};
ghost use Rattle.information_service.specs.Answering.{IsBeginning, IsWhole};
ghost use Rattle.information_service.specs.Lines.{accepted_of};
ghost use Rattle.information_service.specs.ServiceState.{service_after, ServiceState};
ghost use Rattle.journal_answers.specs.JournaledLines.{journal_output};
ghost use Rattle.journal_laws.specs.Heads.{HasShortZone};
ghost use Rattle.journal_laws.specs.Journaled.{accepted_wires, after_lines, read_behind, IsInputLine};
ghost use Rattle.journal_laws.specs.Parts.{IsJournalRead};
ghost use Rattle.journal_lines.specs.declared.heads.Head.{Head as AHead};
ghost use Rattle.journal_lines.specs.Lines.{text_of_head, HasTexts};
ghost use Rattle.journal_replay.specs.Journals.{after_wires, journal_of, messages_in, AreTaken, CanBeHead, CanBeWritten, IsReadSoFar};
ghost use Rattle.journal_replay.specs.Replayed.{replay_of};
ghost use Rattle.message_reader.specs.declared.wire.Line.TheVariants.{Message};
ghost use Rattle.message_reader.specs.declared.wire.Wire.{Wire as AWire};
ghost use Rattle.message_reader.specs.Lines.{line_of};
ghost use Rattle.message_reader.specs.Spelled.{HasLabels};
ghost use Rattle.message_reader.specs.Wires.{IsProper};
ghost use Rattle.mt_io.specs.Lines.{lines_of, Line};

/// Behind every journal, whole or not and refused or not, there are as many messages as lines
/// behind the header, and the service has counted them all: numbers go on from there.
pub fn messages_are_counted()
    ensures messages { (header : List ℕ) (s : ServiceState) (bytes : List ℕ)
        → length (replay_of header s bytes).messages
        ≡ (replay_of header s bytes).lines - 1 }
    ensures count { (header : List ℕ) (s : ServiceState) (bytes : List ℕ)
        → (replay_of header s bytes).service.count
        ≡ s.count + ((replay_of header s bytes).lines - 1) }
{}

/// Whatever bytes are not refused and have a whole line are the journal of messages that are
/// accepted one after the other, and behind it a part of a line: no line is skipped, and neither a
/// torn line nor one that is not a message's own is taken.
pub fn what_is_read_is_a_journal()
    ensures { (head : AHead) (s : ServiceState) (bytes : List ℕ)
        → (replay_of (text_of_head head) s bytes).refusal ≡ None
        → 1 ≤ (replay_of (text_of_head head) s bytes).lines
        → IsJournalRead head s bytes (replay_of (text_of_head head) s bytes) }
{}

/// The messages of a journal, by number, are accepted one after the other in the timetable, and
/// the service behind them stands in the state behind these messages.
pub fn journal_messages_are_accepted_in_turn()
    ensures accepted { (s : ServiceState) (ws : List AWire) → AreTaken s ws
        → AreAccepted s.network s.state (messages_in s ws) }
    ensures state { (s : ServiceState) (ws : List AWire) → AreTaken s ws
        → (after_wires s ws).state ≡ after_messages s.state (messages_in s ws) }
    ensures all { (s : ServiceState) (ws : List AWire) → AreTaken s ws
        → length (messages_in s ws) ≡ length ws }
{}

/// Every message that a line says has civil dates, times up to 99:59:59, labels of 32 bits, names
/// in UTF-8 and, as an extra train, at least two calls. Where the line has fewer than 65,536 bytes,
/// so that it is not long, the message can be written: its line in a journal is not too long.
pub fn read_messages_can_be_written()
    ensures proper { (bytes : List ℕ) (w : AWire) → line_of bytes ≡ Ok (Message w) → IsProper w }
    ensures labels { (bytes : List ℕ) (w : AWire) → line_of bytes ≡ Ok (Message w) → HasLabels w }
    ensures texts { (bytes : List ℕ) (w : AWire) → line_of bytes ≡ Ok (Message w) → HasTexts w }
    ensures written { (bytes : List ℕ) (w : AWire) → length bytes < 65536
        → line_of bytes ≡ Ok (Message w) → CanBeWritten w }
{}

/// The header of a journal is not too long, if its options are in their ranges and the text of its
/// zone has fewer than 174,000 bytes.
pub fn headers_with_short_zones_are_short()
    ensures { (head : AHead) → HasShortZone head → CanBeHead head }
{}

/// Of all lines of an input, and of the first of them, those that are not long have fewer than
/// 65,536 bytes.
pub fn lines_of_inputs_are_input_lines()
    ensures all { (ended : Bool) (input : List ℕ) → All IsInputLine (lines_of ended input) }
    ensures first { (ended : Bool) (input : List ℕ) (first later : List Line)
        → first ++ later ≡ lines_of ended input → All IsInputLine first }
{}

/// What `journal` writes for the lines of an input is the journal of the messages that it accepts,
/// and each of them can be written. If its header is not too long, it is read again: behind it the
/// service stands where the input left it, so a run that begins there goes on where the other one
/// ended. Of every beginning of it, as a run leaves one that is killed, the whole lines are read.
pub fn what_journal_writes_is_read_again()
    ensures whole { (head : AHead) (s : ServiceState) (lines : List Line) (bytes : List ℕ)
        → IsWhole journal_output s (text_of_head head) lines bytes
        → bytes ≡ journal_of head (accepted_wires s lines) }
    ensures beginning { (head : AHead) (s : ServiceState) (lines : List Line) (bytes : List ℕ)
        → IsBeginning journal_output s (text_of_head head) lines bytes
        → bytes ≡ journal_of head (accepted_wires s lines) }
    ensures taken { (s : ServiceState) (lines : List Line) → AreTaken s (accepted_wires s lines) }
    ensures written { (s : ServiceState) (lines : List Line) → All IsInputLine lines
        → All CanBeWritten (accepted_wires s lines) }
    ensures again { (head : AHead) (s : ServiceState) (lines : List Line) (bytes : List ℕ)
        → CanBeHead head → All IsInputLine lines
        → IsWhole journal_output s (text_of_head head) lines bytes
        → replay_of (text_of_head head) s bytes ≡ read_behind s lines }
    ensures begun { (head : AHead) (s : ServiceState) (lines : List Line) (bytes : List ℕ)
        → CanBeHead head → All IsInputLine lines
        → IsBeginning journal_output s (text_of_head head) lines bytes
        → replay_of (text_of_head head) s bytes ≡ read_behind s lines }
    ensures torn { (head : AHead) (s : ServiceState) (lines : List Line) (bytes front : List ℕ)
        → CanBeHead head → All IsInputLine lines
        → IsWhole journal_output s (text_of_head head) lines bytes → IsPrefix front bytes
        → IsReadSoFar s (accepted_wires s lines) front
        (replay_of (text_of_head head) s front) }
{}

/// The messages that `journal` writes for the lines of an input are, by number, the accepted
/// messages of the input, as `times` takes them; and behind them a service that had counted none
/// stands as that of `times`.
pub fn journals_have_the_accepted_messages()
    ensures messages { (s : ServiceState) (lines : List Line)
        → messages_in s (accepted_wires s lines)
        ≡ accepted_of s.network s.names s.state lines }
    ensures service { (s : ServiceState) (lines : List Line) → s.count ≡ 0
        → after_lines s lines ≡ service_after s.network s.names s.state lines }
{}
