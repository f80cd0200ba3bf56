//! What holds of the tables and the lines of so many trains.

ghost use Rattle.std.specs.Prelude.{ℕ};
ghost use Rattle.feed_gen.specs.Laws.{HasQueriesBetweenFlushes, InputIsItsLines, InputIsShort, TablesAreShort};
ghost use Rattle.feed_gen.specs.Lines.{lines};

/// The bytes of the input, cut at each LF, are its lines: none is long, and none is cut.
pub fn input_is_its_lines()
    ensures { InputIsItsLines }
{}

/// The input has fewer bytes than the program takes of an input.
pub fn input_is_short()
    ensures { InputIsShort }
{}

/// A flush stands just before and just behind each query. So where lines are answered in windows
/// that end with a flush, a query shares its window with no message.
pub fn queries_stand_between_flushes()
    ensures { (trains : ℕ) → HasQueriesBetweenFlushes (lines trains) }
{}

/// No table has more bytes than a table may have.
pub fn tables_are_short()
    ensures { TablesAreShort }
{}
