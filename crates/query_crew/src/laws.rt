//! What windows that were read one after the other are.

ghost use Rattle.std.specs.Prelude.{◌≡◌, ◌++◌, List, ℕ, true, false};
ghost use Rattle.delay_model.specs.Windows.{lines_of as lines_in};
ghost use Rattle.mt_io.specs.Lines.{Line, lines_of};
ghost use Rattle.mt_io.specs.Reader.{Reader, IsDone, HoldsNoLine};
ghost use Rattle.mt_io.specs.Runs.{HasAnswered};
ghost use Rattle.query_crew.specs.Windows.{windows_of, with_last, AreReadWindows};

/// Where windows that are closed were read one after the other, and then a last one that is not,
/// they are the windows of their lines. Where all lines of the input were read so, they are the
/// windows of the input; and where a reader stopped before the end, they are those of the lines
/// that are whole among the bytes taken.
pub fn windows_are_those_of_the_input()
    ensures cut { (ws : List (List Line)) (last : List Line) → AreReadWindows ws last
        → windows_of (lines_in ws ++ last) ≡ with_last ws last }
    ensures whole { (ws : List (List Line)) (last : List Line) (bytes : List ℕ) (r : Reader)
        → AreReadWindows ws last → HasAnswered bytes (lines_in ws ++ last) r → IsDone r
        → windows_of (lines_of true bytes) ≡ with_last ws last }
    ensures stopped { (ws : List (List Line)) (last : List Line) (bytes : List ℕ) (r : Reader)
        → AreReadWindows ws last → HasAnswered bytes (lines_in ws ++ last) r
        → r.ended ≡ false → HoldsNoLine r
        → windows_of (lines_of false bytes) ≡ with_last ws last }
{}
