//! What follows of the calls of a line reader for a whole input.
ghost use Rattle.mt_io.specs.Runs.{BeginsWithNone, GoesOnWithEach, EndsWithAll, StopsWithAll, EndsExactly, SpendsExactly};

/// Over any calls, the lines that were answered are the lines of the bytes that were taken.
pub fn answers_are_the_lines()
    ensures begins { BeginsWithNone }
    ensures goes_on { GoesOnWithEach }
    ensures ends { EndsWithAll }
    ensures stops { StopsWithAll }
{}

/// `End` and `Budget` are answered wherever they are true.
pub fn ends_are_exact()
    ensures end { EndsExactly }
    ensures budget { SpendsExactly }
{}
