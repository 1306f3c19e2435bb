ghost use Rattle.std.specs.Prelude.{◌≡◌, ◌≢◌, IfOk, IfErr};
ghost use Rattle.board.specs.Valid.{IsValid};
ghost use Rattle.rows.specs.declared.row.Row.{Row as TheRow};
ghost use Rattle.rows.specs.declared.row_fault.RowFault.TheVariants.{NotARow};
ghost use Rattle.rows.specs.Fits.{Fits};
ghost use Rattle.rows.specs.Row.{row_text};

use crate::answer_reading::read_answer;
use crate::row::Row;
use crate::row_fault::RowFault;
use crate::row_line::read_head;
use crate::split::split_first;
use crate::write_reading::read_writes;
use board::Board;
use std::alloc::Global;

/// The row of these lines: its own, and one for each write that it keeps, each with its newline.
/// `NotARow` where no row of the board has these lines; `Memory` where there was none left for its
/// lists.
pub fn read_row(alloc: Global, board: &Board, lines: &[u8]) -> Result<Row, RowFault>
    requires { IsValid board.now }
    ensures ok { IfOk result (λ row. Fits board.now row × (row_text board.now row ≡ lines.now)) }
    ensures not_a_row { IfErr result (λ fault. fault ≡ NotARow → (row : TheRow) → Fits board.now row → row_text board.now row ≢ lines.now) }
{
    let Some((line, kept)) = split_first(lines, b'\n') else {
        return Err(RowFault::NotARow);
    };
    let Some(head) = read_head(board, line) else {
        return Err(RowFault::NotARow);
    };
    let answer = match read_answer(alloc, board, &head.call, head.answer) {
        Ok(answer) => answer,
        Err(fault) => return Err(fault),
    };
    let writes = match read_writes(alloc, board, kept) {
        Ok(writes) => writes,
        Err(fault) => return Err(fault),
    };
    Ok(Row {
        worker: head.worker,
        line: head.number,
        call: head.call,
        answer,
        writes,
    })
}
