//! Laws of the lines of a journal.

ghost use Rattle.std.specs.Prelude.{◌≡◌, [], ◌∷◌, ◌++◌, ℕ, ◌≤◌, List, All, Ok};
ghost use Rattle.message_reader.specs.declared.wire.Line.TheVariants.{Message};
ghost use Rattle.message_reader.specs.declared.wire.Wire.{Wire as AWire};
ghost use Rattle.message_reader.specs.Lines.{line_of};
ghost use Rattle.message_reader.specs.Spelled.{HasLabels};
ghost use Rattle.message_reader.specs.Wires.{IsProper};
ghost use Rattle.journal_lines.specs.declared.heads.Head.{Head as AHead};
ghost use Rattle.journal_lines.specs.Lines.{text_of_head, text_of_message, HasTexts};
ghost use Rattle.journal_lines.specs.Worked.{worked_head, worked_header_text, worked_message, worked_message_text};

/// The line of every message, whatever its names hold, is read as that message again: without its
/// LF, which ends it, it says the message.
pub fn message_lines_are_read_back()
    ensures { (w : AWire) (line : List ℕ) → IsProper w → HasLabels w → HasTexts w
        → text_of_message w ≡ line ++ 10 ∷ [] → line_of line ≡ Ok (Message w) }
{}

/// The line of a message ends at its first LF: no byte before that is below the blank, so a journal
/// is cut at its LFs into the lines that were written.
pub fn message_lines_have_no_other_line_end()
    ensures { (w : AWire) (line : List ℕ) → IsProper w → HasLabels w → HasTexts w
        → text_of_message w ≡ line ++ 10 ∷ [] → All (λ b. 32 ≤ b) line }
{}

/// The line of a header, whatever its zone is, ends at its first LF as well.
pub fn header_lines_have_no_other_line_end()
    ensures { (head : AHead) (line : List ℕ) → text_of_head head ≡ line ++ 10 ∷ []
        → All (λ b. 32 ≤ b) line }
{}

/// The lines of a worked journal, byte by byte.
pub fn worked_lines_are_as_they_stand()
    ensures header { text_of_head worked_head ≡ worked_header_text }
    ensures message { text_of_message worked_message ≡ worked_message_text }
{}
