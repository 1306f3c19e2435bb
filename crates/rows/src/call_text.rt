ghost use Rattle.std.specs.Prelude.{◌≡◌, ◌<◌, length, IfOk, string_bytes};
ghost use Rattle.rows.specs.Row.{rail_name, NamesRail};
ghost use Rattle.rows.specs.CallText.{call_text};

use crate::call::Call;
use crate::words::state_text;
use board::{Board, Handle, RailId};
use std::alloc::{AllocError, Global};

/// The name of a rail.
pub(crate) fn rail_name(board: &Board, id: RailId) -> &str
    requires { id.0 < length board.now.rails }
    ensures { result.now ≡ rail_name board.now id }
{
    board.rails.as_slice()[usize::from(id.0)].name.as_str()
}

/// The call line of a call that opens a handle.
fn open_text(
    alloc: Global,
    board: &Board,
    handle: &Handle,
    rail: RailId,
    exclusive: bool,
) -> Result<String, AllocError>
    requires { rail.0 < length board.now.rails }
    ensures { IfOk result (λ text. string_bytes text ≡ call_text (rail_name board.now) (Call.Open handle.now rail exclusive)) }
{
    let name = rail_name(board, rail);
    let word = if exclusive { "openx" } else { "open" };
    format!(in alloc; "{word} {handle} {name}")
}

/// The call line of a call.
pub(crate) fn call_text(alloc: Global, board: &Board, call: &Call) -> Result<String, AllocError>
    requires { NamesRail board.now call.now }
    ensures { IfOk result (λ text. string_bytes text ≡ call_text (rail_name board.now) call.now) }
{
    match call {
        Call::Open {
            handle,
            rail,
            exclusive,
        } => open_text(alloc, board, handle, *rail, *exclusive),
        Call::Close { handle } => format!(in alloc; "close {handle}"),
        Call::Enable { handle } => format!(in alloc; "enable {handle}"),
        Call::Disable { handle } => format!(in alloc; "disable {handle}"),
        Call::Set { handle, lo, hi } => format!(in alloc; "set {handle} {lo} {hi}"),
        Call::Load { handle, ua } => format!(in alloc; "load {handle} {ua}"),
        Call::Get { handle } => format!(in alloc; "get {handle}"),
        Call::IsOn { handle } => format!(in alloc; "ison {handle}"),
        Call::ModeOf { handle } => format!(in alloc; "mode {handle}"),
        Call::ListSel { handle, sel } => format!(in alloc; "list {handle} {sel}"),
        Call::Supported { handle, lo, hi } => format!(in alloc; "supported {handle} {lo} {hi}"),
        Call::Listen { handle } => format!(in alloc; "listen {handle}"),
        Call::Events { handle } => format!(in alloc; "events {handle}"),
        Call::Suspend { state } => {
            let word = state_text(*state);
            format!(in alloc; "suspend {word}")
        }
        Call::Resume => format!(in alloc; "resume"),
        Call::ReleaseBoot => format!(in alloc; "release-boot"),
    }
}
