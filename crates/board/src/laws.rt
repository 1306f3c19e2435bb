//! What follows from the definitions.
ghost use Rattle.board.specs.Lone.{IsLone};
ghost use Rattle.board.specs.Valid.{IsValid};

use crate::Board;

/// A board of one rail that is sound by itself is sound as a whole.
pub fn lone_is_valid(board: &Board)
    requires { IsLone board.now }
    ensures { IsValid board.now }
{
    let _board = board;
}
