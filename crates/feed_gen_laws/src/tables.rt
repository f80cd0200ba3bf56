//! What the tables of so many trains hold.

ghost use Rattle.std.specs.Prelude.{◌≤◌, List, ℕ};
ghost use Rattle.mt_base.specs.declared.options.Opts.{Opts};
ghost use Rattle.feed_gen_laws.specs.Timetables.{HoldsTimetable};

/// The tables of so many trains hold a timetable, whatever the options: none of them is refused,
/// and there is not too much of anything. The timetable of 5 January 2026 has so many trains.
pub fn made_tables_hold_a_timetable()
    ensures { (trains : ℕ) (folder : List ℕ) (o : Opts) → 1 ≤ trains → trains ≤ 100000
        → HoldsTimetable trains folder o }
{}
