ghost use Rattle.std.specs.Prelude.{◌≡◌, Some, None, map, IfOk, if◌then◌else◌};
ghost use Rattle.std.specs.Option.{option_map};
ghost use Rattle.dts_tree.specs.Look.{cells_of, strings_of, only_number};
ghost use Rattle.dts_tree.specs.Inside.Pieces.{parts_of};
ghost use Rattle.dts_tree.specs.Inside.Strings.{with_last_byte};

use crate::piece::Piece;
use crate::value::Cell;
use std::alloc::{AllocError, Global};

/// The cells of a value, all parts together, or None where it has a part that isn't cells.
pub(crate) fn cells_of(
    alloc: Global,
    pieces: &[Piece<u32>],
) -> Result<Option<Vec<Cell>>, AllocError>
    ensures { IfOk result (λ r. option_map (λ v. v.items) r ≡ cells_of (parts_of pieces.now)) }
{
    let mut cells = Vec::new(alloc);
    for piece in pieces {
        match *piece {
            Piece::Cells => {}
            Piece::Number(n) => cells.push(Cell::Num(n))?,
            Piece::Node(node) => cells.push(Cell::Node(node))?,
            _ => return Ok(None),
        }
    }
    Ok(Some(cells))
}

/// The strings of a value, or None where it has a part that isn't a string.
pub(crate) fn strings_of(
    alloc: Global,
    pieces: &[Piece<u32>],
) -> Result<Option<Vec<Vec<u8>>>, AllocError>
    ensures { IfOk result (λ r. option_map (λ v. map (λ s. s.items) v.items) r ≡ strings_of (parts_of pieces.now)) }
{
    let mut strings = Vec::new(alloc);
    for piece in pieces {
        match *piece {
            Piece::Text => strings.push(Vec::new(alloc))?,
            Piece::Byte(byte) => {
                if !put_byte(&mut strings, byte)? {
                    return Ok(None);
                }
            }
            _ => return Ok(None),
        }
    }
    Ok(Some(strings))
}

/// Puts a byte behind those of the last string, where there is one.
fn put_byte(strings: &mut Vec<Vec<u8>>, byte: u8) -> Result<bool, AllocError>
    ensures { IfOk result (λ put. (if put then Some (map (λ s. s.items) strings.new.items) else None) ≡ with_last_byte (map (λ s. s.items) strings.old.items) byte) }
{
    let Some(mut last) = strings.pop() else {
        return Ok(false);
    };
    last.push(byte)?;
    strings.push(last)?;
    Ok(true)
}

/// The number that is the only cell.
pub(crate) fn only_number(cells: &[Cell]) -> Option<u32>
    ensures { result ≡ only_number cells.now }
{
    match cells {
        [Cell::Num(n)] => Some(*n),
        _ => None,
    }
}
