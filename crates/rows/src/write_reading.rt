ghost use Rattle.std.specs.Prelude.{ℕ, ◌≡◌, ◌≢◌, ◌∷◌, ◌++◌, [], List, All, codes, decimal, flat_map, IfSome, IfNone, IfOk, IfErr};
ghost use Rattle.board.specs.declared.write.Write.{Write as TheWrite};
ghost use Rattle.rows.specs.declared.row_fault.RowFault.TheVariants.{NotARow};
ghost use Rattle.rows.specs.Fits.{FitsWrite};
ghost use Rattle.rows.specs.Row.{write_text};
ghost use Rattle.rows.specs.Words.{ended, spaced, hex_text};

use crate::numbers::{parse_byte, parse_hex, parse_hex_pair};
use crate::row_fault::RowFault;
use crate::split::{after_prefix, split_first};
use board::{Board, Write};
use item_list::Items;
use std::alloc::Global;

/// The write of a line, without its newline.
fn parse_write(board: &Board, line: &[u8]) -> Option<Write>
    ensures some { IfSome result (λ write. FitsWrite board.now write × (ended line.now ≡ write_text write)) }
    ensures none { IfNone result ((write : TheWrite) → FitsWrite board.now write → line.now ≢ spaced (codes "+" ∷ decimal write.chip ∷ hex_text write.reg ∷ hex_text write.mask ∷ hex_text write.bits ∷ [])) }
{
    let words = after_prefix(line, b"+ ")?;
    let (chip, words) = split_first(words, b' ')?;
    let (reg, words) = split_first(words, b' ')?;
    let chip = parse_byte(chip)?;
    let reg = parse_hex(reg)?;
    let (mask, bits) = parse_hex_pair(words)?;
    if chip >= board.chips {
        return None;
    }
    Some(Write {
        chip,
        reg,
        mask,
        bits,
    })
}

/// The write of the first line, and the lines behind it.
fn read_write<'a>(board: &Board, text: &'a [u8]) -> Option<(Write, &'a [u8])>
    ensures some { IfSome result (λ read. FitsWrite board.now read.0 × (text.now ≡ write_text read.0 ++ read.1.now)) }
    ensures none { IfNone result ((write : TheWrite) (more : List ℕ) → FitsWrite board.now write → text.now ≢ write_text write ++ more) }
{
    let (line, rest) = split_first(text, b'\n')?;
    let write = parse_write(board, line)?;
    Some((write, rest))
}

/// The writes of these lines.
pub(crate) fn read_writes(
    alloc: Global,
    board: &Board,
    text: &[u8],
) -> Result<Items<Write>, RowFault>
    ensures fits { IfOk result (All (FitsWrite board.now)) }
    ensures lines { IfOk result (λ writes. text.now ≡ flat_map write_text writes) }
    ensures none { IfErr result (λ fault. fault ≡ NotARow → (writes : List TheWrite) → All (FitsWrite board.now) writes → text.now ≢ flat_map write_text writes) }
{
    let mut writes = Items::new(alloc);
    let mut left = text;
    'lines: while !left.is_empty() {
        let Some((write, rest)) = read_write(board, left) else {
            return Err(RowFault::NotARow);
        };
        writes.push(write)?;
        left = rest;
    }
    Ok(writes)
}
