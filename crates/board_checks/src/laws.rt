//! What follows from the definitions.
ghost use Rattle.std.specs.Prelude.{◌≡◌, ◌≢◌, ◌↔◌, ℕ, List, None, Some, All};
ghost use Rattle.board.specs.declared.board.Board.{Board};
ghost use Rattle.board.specs.Gaps.{IsSpreadOf};
ghost use Rattle.board.specs.Valid.{CarriesSystemLoad, IsGraphOf};
ghost use Rattle.board_checks.specs.declared.fault.CheckFault.TheVariants.{GapOverSpread, GapOverStep, SuspendSpread};
ghost use Rattle.board_checks.specs.Rails.{HaveSpreads};
ghost use Rattle.board_checks.specs.Gaps.{widest_gap, IsWidestGap};
ghost use Rattle.board_checks.specs.GapFault.{gap_fault, spread_fault, step_at, AreNarrow, HasWideGap};
ghost use Rattle.board_checks.specs.Asleep.{suspend_fault, AreFarAsleep};
ghost use Rattle.board_checks.specs.Loads.{load_fault};

/// The widest gap of a list of values is that of some neighbours, and none are further apart.
pub fn widest_gap_is()
    ensures { (values : List ℕ) → IsWidestGap values (widest_gap values) }
{}

/// No gap of a board is a fault exactly where each changeable rail has narrow gaps.
pub fn no_gap_fault()
    ensures { (board : Board) → IsGraphOf board → HaveSpreads board
        → gap_fault board ≡ None ↔ AreNarrow board }
{}

/// A gap that is told as above a spread is the widest one of a changeable rail, and the spread binds it.
pub fn real_over_spread()
    ensures { (board : Board) (r gap spread : ℕ) → IsGraphOf board → HaveSpreads board
        → gap_fault board ≡ Some (GapOverSpread r gap spread)
        → HasWideGap board r gap spread × IsSpreadOf board r spread }
{}

/// A gap that is told as above a step is the widest one of a changeable rail, whose greatest step that is, and none
/// is above a spread.
pub fn real_over_step()
    ensures { (board : Board) (r gap step : ℕ)
        → gap_fault board ≡ Some (GapOverStep r gap step)
        → HasWideGap board r gap step × (step_at board r ≡ step) × (step ≢ 0) × (spread_fault board ≡ None) }
{}

/// No pair of rails is a fault exactly where none is too far apart while the board is suspended.
pub fn no_suspend_fault()
    ensures { (board : Board)
        → suspend_fault board ≡ None ↔ ((a b : ℕ) → ¬ AreFarAsleep board a b) }
{}

/// Two rails that are told are too far apart while the board is suspended.
pub fn real_suspend_fault()
    ensures { (board : Board) (a b : ℕ)
        → suspend_fault board ≡ Some (SuspendSpread a b) → AreFarAsleep board a b }
{}

/// No load of a board is a fault exactly where each rail carries its own.
pub fn no_load_fault()
    ensures { (board : Board) → IsGraphOf board
        → load_fault board ≡ None ↔ All CarriesSystemLoad board.rails }
{}
