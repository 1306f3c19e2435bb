ghost use Rattle.std.specs.Prelude.{ℕ, ◌≡◌, false, [], length, map, slice_index, None, Some, All, IfOk, IfErr, OnOk};
ghost use Rattle.std.specs.List.{enumerate_from};
ghost use Rattle.chip_regs.specs.Field.{FitsField};
ghost use Rattle.board.specs.Desc.{IsPlaced};
ghost use Rattle.board.specs.Valid.{IsSoundBoard, IsValid};
ghost use Rattle.plain_board.specs.Inv.{Inv};
ghost use Rattle.plain_board.specs.Untied.{IsUntied};
ghost use Rattle.board_load.specs.Loading.{board_at, load, HasValueInside};
ghost use Rattle.board_load.specs.Start.{is_asked_on, no_vector};
ghost use Rattle.board_load.specs.Inside.Puts.{after_puts, loading_puts};

use crate::loaded::Loaded;
use crate::puts::{Put, apply, loading_puts, writes_of};
use crate::switched::{holds_of, on_of};
use crate::targets::targets_of;
use board::{Board, Event, Rail};
use board_draft::Drafted;
use chip_regs::Regs;
use item_list::Items;
use plain_board::{Plain, hold_fields};
use std::alloc::{AllocError, Global};

/// Why a board can't be loaded.
#[derive(Clone, Copy, Debug)]
pub enum FinishFault {
    /// No values of what moves with this rail keep spreads and dropouts, of several such rails the first.
    NoVector(u16),
    /// An allocation was refused.
    Memory,
}

impl From<AllocError> for FinishFault {
    ghost use Rattle.std.specs.Prelude.{◌≡◌};
    ghost use Rattle.board_load.specs.declared.finishing.FinishFault.TheVariants.{Memory};

    ghost from_gives = { λ _ fault. fault ≡ Memory };

    fn from(_e: AllocError) -> FinishFault {
        FinishFault::Memory
    }
}

/// Loads a board of which no rail's value binds another's, from the registers that were found. Each rail
/// gets the least of its values that isn't below its floor, those that are to be on are on with all
/// above them, and the writes that lead there are told in order.
pub fn finish(alloc: Global, draft: Drafted, regs: Regs) -> Result<Loaded, FinishFault>
    requires valid { IsValid draft.board }
    requires inside { All HasValueInside draft.board.rails }
    requires untied { IsUntied draft.board }
    requires chips { length regs ≡ draft.board.chips }
    ensures loaded { IfOk result (λ loaded. load draft.board regs ≡ Some loaded) }
    ensures vector { OnOk result (no_vector draft.board regs ≡ None) }
    ensures fault { IfErr result (λ fault. (r : ℕ) → fault ≡ FinishFault.NoVector r → no_vector draft.board regs ≡ Some r) }
    ensures valid { IfOk result (λ loaded. IsValid loaded.board) }
    ensures inv { IfOk result (λ loaded. Inv loaded.board loaded.plain) }
    ensures untied { IfOk result (λ loaded. IsUntied loaded.board) }
{
    let Drafted {
        board,
        resets: _resets,
    } = draft;
    hold_fields(&board, &regs);
    let values = targets_of(alloc, &board, &regs)?;
    let puts = puts_of(alloc, &board, &regs, values.as_slice())?;
    let plain = plain_of(alloc, &board, regs, puts.as_slice())?;
    let writes = writes_of(alloc, puts.as_slice())?;
    Ok(Loaded {
        board: with_kept(board, values.as_slice()),
        writes,
        plain,
    })
}

/// What is put into the registers, in order.
fn puts_of(
    alloc: Global,
    board: &Board,
    regs: &Regs,
    values: &[u32],
) -> Result<Items<Put>, AllocError>
    requires sound { IsSoundBoard board.now }
    requires chips { length regs.now ≡ board.now.chips }
    requires values { length values.now ≡ length board.now.rails }
    ensures { IfOk result (λ puts. puts ≡ loading_puts board.now regs.now values.now) }
{
    let on = on_of(alloc, board, regs)?;
    loading_puts(alloc, board, regs, values, on.as_slice())
}

/// The plain board once these are put: no handle is open, and each rail is held that is to be on.
fn plain_of(alloc: Global, board: &Board, mut regs: Regs, puts: &[Put]) -> Result<Plain, AllocError>
    requires sound { IsSoundBoard board.now }
    requires chips { length regs ≡ board.now.chips }
    requires placed { All (λ put. IsPlaced (length regs) put.field) puts.now }
    requires room { All (λ put. FitsField put.field put.bits) puts.now }
    ensures regs { IfOk result (λ plain. plain.regs ≡ after_puts regs puts.now) }
    ensures handles { IfOk result (λ plain. plain.handles ≡ []) }
    ensures holds { IfOk result (λ plain. plain.holds ≡ map (is_asked_on regs) board.now.rails) }
    ensures suspended { IfOk result (λ plain. plain.suspended ≡ false) }
    ensures events { IfOk result (λ plain. plain.events ≡ map (λ _. []) board.now.rails) }
{
    let holds = holds_of(alloc, board, &regs)?;
    let events = no_events(alloc, board)?;
    apply(&mut regs, puts);
    Ok(Plain {
        regs,
        handles: Items::new(alloc),
        holds,
        suspended: false,
        events,
    })
}

/// For each rail no events.
fn no_events(alloc: Global, board: &Board) -> Result<Items<Items<Event>>, AllocError>
    ensures { IfOk result (λ events. events ≡ map (λ _. []) board.now.rails) }
{
    let mut events = Items::new(alloc);
    for _rail in board.rails.as_slice() {
        events.push(Items::new(alloc))?;
    }
    Ok(events)
}

/// The board with these values, rail by rail, as those that rails have which can't change.
fn with_kept(board: Board, values: &[u32]) -> Board
    requires { length values.now ≡ length board.rails }
    ensures { result ≡ board_at board values.now }
{
    let Board {
        rails,
        spread,
        chips,
        graph,
        order,
    } = board;
    Board {
        rails: kept_rails(rails, values),
        spread,
        chips,
        graph,
        order,
    }
}

fn kept_rails(rails: Items<Rail>, values: &[u32]) -> Items<Rail>
    requires { length values.now ≡ length rails }
    ensures { result ≡ map (λ rail. record rail.1 { kept_uv = slice_index values.now rail.0 }) (enumerate_from 0 rails) }
{
    let mut rails = rails.into_vec();
    for (r, rail) in rails.iter_mut().enumerate() {
        rail.kept_uv = values[r];
    }
    Items::from_vec(rails)
}
