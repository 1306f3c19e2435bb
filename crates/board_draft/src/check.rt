ghost use Rattle.std.specs.Prelude.{◌≡◌, [], ◌∷◌, None, Some, IfErr, OnOk};
ghost use Rattle.std.specs.Option.{option_map};
ghost use Rattle.board.specs.Valid.{IsSoundBoard, IsValid};
ghost use Rattle.dts_nodes.specs.Firsts.{first_of};
ghost use Rattle.board_draft.specs.Faults.{board_fault};

use crate::fault::BoardFault;
use board::Board;
use board_checks::{check_gaps, check_loads, check_sleeps};

/// What a sound board can't hold: a gap, the values of a suspended board, or a load.
pub(crate) fn check(board: &Board) -> Result<(), BoardFault>
    requires { IsSoundBoard board.now }
    ensures fault { IfErr result (λ fault. board_fault board.now ≡ Some fault) }
    ensures none { OnOk result (board_fault board.now ≡ None) }
    ensures valid { OnOk result (IsValid board.now) }
{
    if let Some(fault) = check_gaps(board) {
        return Err(BoardFault::from(fault));
    }
    if let Some(fault) = check_sleeps(board) {
        return Err(BoardFault::from(fault));
    }
    match check_loads(board) {
        Some(fault) => Err(BoardFault::from(fault)),
        None => Ok(()),
    }
}
