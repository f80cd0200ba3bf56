//! Laws of the windows of `serve`, over lines of any type `X`, and of the counts between which
//! their queries may be answered.

ghost use Rattle.std.specs.Prelude.{◌≡◌, ◌↔◌, ◌++◌, ◌∷◌, ◌+◌, ◌<◌, ℕ, List, Bool, Some, length, fold, slice_get};
ghost use Rattle.delay_model.specs.After.{after_messages, accepted, known_after, after_line, Progress, Reading};
ghost use Rattle.delay_model.specs.Windows.{windows, lines_of, AreWindows, bounds_of, accepted_bounds, between};

use crate::network::Network;
use crate::state::State;

/// The windows of lines are the lines in their order, each has 1 to 256 lines, a flush stands at
/// the end of its window, and each window before another one has 256 lines or a flush. There is no
/// other list of windows of which this holds.
pub fn windows_cut_the_lines<X>()
    ensures { (is_flush : X → Bool) (lines : List X) (ws : List (List X)) →
        AreWindows is_flush lines ws ↔ (ws ≡ windows is_flush lines) }
{}

/// Each line of the windows has its bounds: the count at the start of its window, which is that
/// after the lines of all windows before it, and the count at the end of its window. What is known
/// is of type `S`.
pub fn each_line_has_the_bounds_of_its_window<X, S>()
    ensures count { (next : S → X → S) (count : S → ℕ) (s : S) (ws : List (List X)) →
        length (bounds_of next count s ws) ≡ length (lines_of ws) }
    ensures bounds { (next : S → X → S) (count : S → ℕ) (s : S) →
        (before later : List (List X)) (w : List X) (i : ℕ) → i < length w →
        slice_get (bounds_of next count s (before ++ w ∷ later)) (length (lines_of before) + i)
        ≡ Some (between (count (fold next s (lines_of before)))
        (count (fold next s (lines_of before ++ w)))) }
{}

/// Line by line one gets the state, the names and the number of accepted messages that all lines
/// leave. So the bounds of a query are the numbers of messages that are accepted of the lines
/// before its window, and of these with its window.
pub fn queries_are_bounded_by_accepted_messages<X, N>(nw: &Network, st: &State)
    ensures progress { (reading : Reading X N) (names : N) (lines : List X) →
        fold (after_line nw.now reading) (record { state = st.now; names = names; count = 0 }) lines
        ≡ record {
          state = after_messages st.now (accepted nw.now reading st.now names lines);
          names = known_after nw.now reading st.now names lines;
          count = length (accepted nw.now reading st.now names lines);
        } }
    ensures bounds { (reading : Reading X N) (names : N) →
        (before later : List (List X)) (w : List X) (i : ℕ) → i < length w →
        slice_get (accepted_bounds nw.now reading st.now names (before ++ w ∷ later))
        (length (lines_of before) + i)
        ≡ Some (between (length (accepted nw.now reading st.now names (lines_of before)))
        (length (accepted nw.now reading st.now names (lines_of before ++ w)))) }
{}
