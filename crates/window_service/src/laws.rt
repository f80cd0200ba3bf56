//! What holds of the sums over replies.

ghost use Rattle.window_service.specs.SameSums.{SumsAreTheSame};

/// Where no query shares its window with a message, the sums are the same in every run, whoever
/// answers which query, and whatever the number of workers.
pub fn sums_are_the_same()
    ensures { SumsAreTheSame }
{}
