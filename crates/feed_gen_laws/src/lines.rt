//! What the lines of the input for so many trains say.

ghost use Rattle.std.specs.Prelude.{◌≡◌, Ok};
ghost use Rattle.feed_gen.specs.Lines.{InputLine, text_of};
ghost use Rattle.feed_gen_laws.specs.Sayings.{saying};
ghost use Rattle.message_reader.specs.Lines.{line_of};

/// Each line of the input is read as the forecast, the query or the flush that it is.
pub fn made_lines_are_read()
    ensures { (x : InputLine) → line_of (text_of x) ≡ Ok (saying x) }
{}
