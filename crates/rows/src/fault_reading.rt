ghost use Rattle.std.specs.Prelude.{ℕ, ◌≡◌, ◌≢◌, ◌^◌, ◌<◌, ◌∷◌, ◌++◌, [], List, All, codes, decimal, flat_map, IfSome, IfNone, IfOk, IfErr};
ghost use Rattle.board.specs.declared.rail_id.RailId.{RailId as TheRailId};
ghost use Rattle.board.specs.Valid.{IsValid};
ghost use Rattle.rows.specs.declared.answer.Answer.{Answer as TheAnswer};
ghost use Rattle.rows.specs.declared.row_fault.RowFault.TheVariants.{NotARow};
ghost use Rattle.rows.specs.AnswerParts.{IsAnswer};
ghost use Rattle.rows.specs.AnswerText.{now_text};
ghost use Rattle.rows.specs.Fits.{FitsNow, Told};
ghost use Rattle.rows.specs.Row.{rail_name};
ghost use Rattle.rows.specs.Tails.{IsTail};
ghost use Rattle.rows.specs.Words.{spaced, hex_text};

use crate::answer::Answer;
use crate::numbers::{parse_byte, parse_hex, parse_number};
use crate::row_fault::RowFault;
use crate::row_line::rail_named;
use crate::split::{after_prefix, split_first, take_until};
use board::{Board, RailId};
use item_list::Items;
use std::alloc::Global;

/// A rail that changed with its value, behind a space, and what stands behind them.
fn read_now<'a>(board: &Board, text: &'a [u8]) -> Option<((RailId, u32), &'a [u8])>
    requires { IsValid board.now }
    ensures some { IfSome result (λ read. FitsNow board.now read.0 × (text.now ≡ now_text (rail_name board.now) read.0 ++ read.1.now)) }
    ensures tail { IfSome result (λ read. IsTail 32 read.1.now) }
    ensures none { IfNone result ((now : TheRailId × ℕ) (more : List ℕ) → FitsNow board.now now → IsTail 32 more → text.now ≢ now_text (rail_name board.now) now ++ more) }
{
    let words = after_prefix(text, b" ")?;
    let (name, others) = split_first(words, b' ')?;
    let (value, rest) = take_until(others, b' ');
    let id = rail_named(board, name)?;
    let uv = parse_number(value)?;
    Some(((id, uv), rest))
}

/// The rails that changed, with their values.
fn read_nows(alloc: Global, board: &Board, text: &[u8]) -> Result<Items<(RailId, u32)>, RowFault>
    requires { IsValid board.now }
    ensures fits { IfOk result (All (FitsNow board.now)) }
    ensures lines { IfOk result (λ now. text.now ≡ flat_map (now_text (rail_name board.now)) now) }
    ensures none { IfErr result (λ fault. fault ≡ NotARow → (now : List (TheRailId × ℕ)) → All (FitsNow board.now) now → text.now ≢ flat_map (now_text (rail_name board.now)) now) }
{
    let mut list = Items::new(alloc);
    let mut left = text;
    'rails: while !left.is_empty() {
        let Some((now, rest)) = read_now(board, left) else {
            return Err(RowFault::NotARow);
        };
        list.push(now)?;
        left = rest;
    }
    Ok(list)
}

/// The chip and the register of a fault, and what stands behind them.
fn split_register(words: &[u8]) -> Option<(u8, u8, &[u8])>
    ensures some { IfSome result (λ n. words.now ≡ spaced (decimal n.0 ∷ hex_text n.1 ∷ n.2.now ∷ [])) }
    ensures fits { IfSome result (λ n. (n.0 < 2 ^ 8) × (n.1 < 2 ^ 8)) }
    ensures none { IfNone result ((chip reg : ℕ) (rest : List ℕ) → chip < 2 ^ 8 → reg < 2 ^ 8 → words.now ≢ spaced (decimal chip ∷ hex_text reg ∷ rest ∷ [])) }
{
    let (first, others) = split_first(words, b' ')?;
    let (second, rest) = split_first(others, b' ')?;
    let chip = parse_byte(first)?;
    let reg = parse_hex(second)?;
    Some((chip, reg, rest))
}

/// The fault by what stands behind its word.
pub(crate) fn read_fault(alloc: Global, board: &Board, words: &[u8]) -> Result<Answer, RowFault>
    requires { IsValid board.now }
    ensures ok { IfOk result (λ answer. (kind : Told) → IsAnswer board.now kind answer (codes "fault" ∷ words.now ∷ [])) }
    ensures none { IfErr result (λ fault. fault ≡ NotARow → (kind : Told) (answer : TheAnswer) → ¬ IsAnswer board.now kind answer (codes "fault" ∷ words.now ∷ [])) }
{
    let Some((chip, reg, rest)) = split_register(words) else {
        return Err(RowFault::NotARow);
    };
    let (count, rest) = take_until(rest, b' ');
    let Some(applied) = parse_number(count) else {
        return Err(RowFault::NotARow);
    };
    match read_nows(alloc, board, rest) {
        Ok(now) => Ok(Answer::Fault {
            chip,
            reg,
            applied,
            now,
        }),
        Err(fault) => Err(fault),
    }
}
