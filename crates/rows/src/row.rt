ghost use Rattle.std.specs.Prelude.{◌≡◌, ◌++◌, OnOk, string_bytes};
ghost use Rattle.rows.specs.Row.{write_text};

use crate::answer::Answer;
use crate::answer_text::answer_text;
use crate::call::Call;
use crate::call_text::call_text;
use crate::words::hex_text;
use board::{Board, Write};
use item_list::Items;
use std::alloc::{AllocError, Global};

/// One line of a history: the call of a worker's script, its answer, and the register writes that
/// it made where they are kept. `line` counts the worker's lines from 1.
#[derive(Drop)]
pub struct Row {
    pub worker: u16,
    pub line: u32,
    pub call: Call,
    pub answer: Answer,
    pub writes: Items<Write>,
}

/// Appends the line of a write that was kept.
fn push_write(alloc: Global, text: &mut String, write: &Write) -> Result<(), AllocError>
    ensures { OnOk result (string_bytes text.new ≡ string_bytes text.old ++ write_text write.now) }
{
    let chip = write.chip;
    let reg = hex_text(alloc, write.reg)?;
    let mask = hex_text(alloc, write.mask)?;
    let bits = hex_text(alloc, write.bits)?;
    let line = format!(in alloc; "+ {chip} {reg} {mask} {bits}\n")?;
    text.push_str(line.as_str())
}

impl Row {
    ghost use Rattle.std.specs.Prelude.{◌≡◌, ◌++◌, OnOk, OnErr};
    ghost use Rattle.rows.specs.Row.{row_text, NamesRail, HasRails};

    /// Appends the line of the row, and a line for each write that it keeps. On want of memory
    /// `out` is as before.
    pub fn text(&self, alloc: Global, board: &Board, out: &mut Vec<u8>) -> Result<(), AllocError>
        requires call { NamesRail board.now self.now.call }
        requires answer { HasRails board.now self.now.answer }
        ensures ok { OnOk result (out.new.items ≡ out.old.items ++ row_text board.now self.now) }
        ensures err { OnErr result (out.new.items ≡ out.old.items) }
    {
        let worker = self.worker;
        let line = self.line;
        let call = call_text(alloc, board, &self.call)?;
        let answer = answer_text(alloc, board, &self.answer)?;
        let mut text = format!(in alloc; "{worker} {line} {call} -> {answer}\n")?;
        for write in self.writes.as_slice() {
            push_write(alloc, &mut text, write)?;
        }
        out.extend_from_slice(text.as_bytes())
    }
}
