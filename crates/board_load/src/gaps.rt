ghost use Rattle.std.specs.Prelude.{◌≡◌};
ghost use Rattle.std.specs.Option.{option_map};
ghost use Rattle.board.specs.Valid.{IsSoundBoard};
ghost use Rattle.board_checks.specs.GapFault.{gap_fault};
ghost use Rattle.board_draft.specs.Fault.{of_check};

use board::Board;
use board_draft::BoardFault;

/// The first changeable rail with a gap between neighbouring values that a spread or its greatest step doesn't span.
pub fn check_gaps(board: &Board) -> Option<BoardFault>
    requires { IsSoundBoard board.now }
    ensures { result ≡ option_map of_check (gap_fault board.now) }
{
    match board_checks::check_gaps(board) {
        Some(fault) => Some(BoardFault::from(fault)),
        None => None,
    }
}
