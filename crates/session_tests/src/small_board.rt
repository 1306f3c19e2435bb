//! A board of four rails on two chips, and the built-in one.
ghost use Rattle.std.specs.Prelude.{IfSome};
ghost use Rattle.board.specs.Valid.{IsValid};

use board::Board;
use board_draft::{Drafted, draft};
use board_load::demo;
use dts_lex::lex;
use dts_tree::parse;
use std::alloc::Global;
use std::process::Abort;

/// Its rails are core, `->` and one of the longest name on chip 0, and vbat on chip 1.
const TEXT: &[u8] = b"/dts-v1/;
/ {
    pmic@48 {
        compatible = \"example,pm4\";
        regulators {
            buck1 { regulator-name = \"core\"; };
            buck2 { regulator-name = \"->\"; };
            buck3 {
                regulator-name = \"abcdefghijklmnopqrstuvwxyz0123456789ABCDEFGHIJKLMNOPQRSTUVWXYZ-.\";
            };
        };
    };
    vbat { compatible = \"regulator-fixed\"; };
};
";

fn read_board(alloc: Global) -> Option<Board>
    ensures { IfSome result IsValid }
{
    let tokens = lex(alloc, TEXT).ok()?;
    let tree = parse(alloc, TEXT, tokens.as_slice()).ok()?;
    let Drafted {
        board,
        resets: _resets,
    } = draft(alloc, &tree).ok()?;
    Some(board)
}

/// The board, which is read once more where an allocation was refused.
pub(crate) fn small_board(rt: &impl Abort, alloc: Global) -> Board
    ensures { IsValid result }
{
    match read_board(alloc) {
        Some(board) => board,
        None => read_board(alloc).expect(rt, "the board"),
    }
}

/// The built-in board, whose one rail is core. It is made once more where an allocation was refused.
pub(crate) fn built_in_board(rt: &impl Abort, alloc: Global) -> Board
    ensures { IsValid result }
{
    let drafted = match demo(alloc) {
        Ok(drafted) => drafted,
        Err(_) => demo(alloc).expect(rt, "the board"),
    };
    let Drafted {
        board,
        resets: _resets,
    } = drafted;
    board
}
