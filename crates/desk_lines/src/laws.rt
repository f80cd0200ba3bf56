//! What questions of `desk` are to other commands.

ghost use Rattle.std.specs.Prelude.{◌≡◌, ℕ, List, true, false, Err};
ghost use Rattle.message_reader.specs.declared.bad_line.BadLine.TheVariants.{Shape};
ghost use Rattle.message_reader.specs.Lines.{line_of, value_of};
ghost use Rattle.desk_lines.specs.DeskLines.{as_desk_line, desk_line_of, is_question_in};

/// A line that is no question of `desk` says to it what it says to every command, and one that is
/// has `Shape` to the others.
pub fn lines_are_the_same_to_desk()
    ensures same { (bytes : List ℕ) → is_question_in (value_of bytes) ≡ false
        → desk_line_of bytes ≡ as_desk_line (line_of bytes) }
    ensures bad { (bytes : List ℕ) → is_question_in (value_of bytes) ≡ true
        → line_of bytes ≡ Err Shape }
{}
