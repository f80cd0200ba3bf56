//! Where the windows of `serve` end.

ghost use Rattle.std.specs.Prelude.{◌≡◌, ◌+◌, List, [], ◌∷◌, ◌++◌, Bool, true, false, map, length, replicate, ℕ, nat_eq, if◌then◌else◌};
ghost use Rattle.delay_model.specs.Windows.{windows, bounds_of, single_windows, between, AreWindows, CountsDoNotFall};
ghost use Rattle.model_examples.specs.TwoTrains.{answered};

/// A window ends with a flush line, which is its last line. Here the lines are true where they are
/// flush lines.
pub fn a_flush_ends_a_window()
    ensures { windows (λ x. x) (false ∷ false ∷ true ∷ true ∷ false ∷ [])
        ≡ (false ∷ false ∷ true ∷ []) ∷ (true ∷ []) ∷ (false ∷ []) ∷ [] }
{}

/// A window ends with its 256th line, also where that is a flush line.
pub fn a_window_has_256_lines()
    ensures full { map length (windows (λ x. x) (replicate 257 false)) ≡ 256 ∷ 1 ∷ [] }
    ensures just_full { map length (windows (λ x. x) (replicate 256 false)) ≡ 256 ∷ [] }
    ensures flush { map length (windows (λ x. x) (replicate 255 false ++ true ∷ false ∷ []))
        ≡ 256 ∷ 1 ∷ [] }
    ensures after_a_flush { map length (windows (λ x. x) (true ∷ replicate 257 false))
        ≡ 1 ∷ 256 ∷ 1 ∷ [] }
{}

/// No lines have no window.
pub fn no_window()
    ensures { windows {X = Bool} (λ x. x) [] ≡ [] }
{}

/// The queries of a window may be answered from the count of messages at its start up to that at
/// its end. Here a line 1 is a message that is accepted, 0 a query and 2 a flush.
pub fn queries_within_a_window()
    ensures { bounds_of (λ (n line : ℕ). if nat_eq line 1 then n + 1 else n) (λ n. n) 0
        (windows (λ line. nat_eq line 2) (0 ∷ 1 ∷ 1 ∷ 2 ∷ 0 ∷ 1 ∷ []))
        ≡ between 0 2 ∷ between 0 2 ∷ between 0 2 ∷ between 0 2 ∷ between 2 3 ∷ between 2 3 ∷ [] }
{}

/// Where each line is a window of its own, a query is answered after the messages before it.
pub fn single_lines()
    ensures { bounds_of (λ (n line : ℕ). if nat_eq line 1 then n + 1 else n) (λ n. n) 0
        (single_windows (0 ∷ 1 ∷ 0 ∷ [])) ≡ between 0 0 ∷ between 0 1 ∷ between 1 1 ∷ [] }
{}

/// A line 2 is a flush here. These are windows of the lines; they are none where one goes on after
/// a flush, where one ends without a flush, where a line is lost, and where a window has no line.
pub fn no_other_windows()
    ensures windows { AreWindows (λ line. nat_eq line 2) (0 ∷ 2 ∷ 1 ∷ [])
        ((0 ∷ 2 ∷ []) ∷ (1 ∷ []) ∷ []) }
    ensures goes_on { AreWindows (λ line. nat_eq line 2) (0 ∷ 2 ∷ 1 ∷ [])
        ((0 ∷ 2 ∷ 1 ∷ []) ∷ []) → ⊥ }
    ensures ends { AreWindows (λ line. nat_eq line 2) (0 ∷ 2 ∷ 1 ∷ [])
        ((0 ∷ []) ∷ (2 ∷ []) ∷ (1 ∷ []) ∷ []) → ⊥ }
    ensures lost { AreWindows (λ line. nat_eq line 2) (0 ∷ 2 ∷ 1 ∷ []) ((0 ∷ 2 ∷ []) ∷ []) → ⊥ }
    ensures empty { AreWindows (λ line. nat_eq line 2) (0 ∷ 2 ∷ []) ((0 ∷ 2 ∷ []) ∷ [] ∷ []) → ⊥ }
{}

/// Counts may fall from one client to another, and not for one client, also where another one's
/// answer stands between.
pub fn counts_of_a_client()
    ensures kept { CountsDoNotFall
        (answered 7 3 ∷ answered 8 2 ∷ answered 7 3 ∷ answered 8 4 ∷ []) }
    ensures falls { CountsDoNotFall (answered 7 3 ∷ answered 8 2 ∷ answered 7 2 ∷ []) → ⊥ }
{}
