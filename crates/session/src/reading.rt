ghost use Rattle.std.specs.Prelude.{◌≡◌, ◌≢◌, IfOk, IfErr};
ghost use Rattle.board.specs.Valid.{IsValid};
ghost use Rattle.plain_board.specs.Inv.{Inv};
ghost use Rattle.session.specs.Loading.{refusals_in};
ghost use Rattle.session.specs.Session.{IsSession, FirstFault, ArePlayable};

use crate::fault::{SessionFault, SessionKind};
use crate::frame::read_frame;
use crate::loading::load_board;
use crate::session::Session;
use crate::setup::Setup;
use item_list::Items;
use std::alloc::{AllocError, Global};

/// The most bytes that a session may have.
pub const SESSION_LIMIT: usize = 4_194_304;

impl From<AllocError> for SessionFault {
    ghost use Rattle.std.specs.Prelude.{◌≡◌};
    ghost use Rattle.session.specs.BoardText.{no_memory};

    ghost from_gives = { λ _ fault. fault ≡ no_memory };

    fn from(_e: AllocError) -> SessionFault {
        SessionFault {
            line: 0,
            kind: SessionKind::Memory,
        }
    }
}

/// The updates that a setup refuses, each with its worker.
fn refusals_in(alloc: Global, setup: &[Setup]) -> Result<Items<(u16, u32)>, AllocError>
    ensures { IfOk result (λ refusals. refusals ≡ refusals_in setup.now) }
{
    let mut refusals = Items::new(alloc);
    for line in setup {
        if let Setup::Refusal { worker, update } = line {
            refusals.push((*worker, *update))?;
        }
    }
    Ok(refusals)
}

/// The session of a text, or its first fault; `Memory` where an allocation is refused.
pub fn read_session(alloc: Global, bytes: &[u8]) -> Result<Session, SessionFault>
    ensures session { IfOk result (IsSession bytes.now) }
    ensures fault { IfErr result (λ fault. fault.kind ≢ SessionKind.Memory → FirstFault bytes.now fault) }
    ensures valid { IfOk result (λ session. IsValid session.loaded.board) }
    ensures inv { IfOk result (λ session. Inv session.loaded.board session.loaded.plain) }
    ensures playable { IfOk result (λ session. ArePlayable session.loaded.board session.scripts) }
{
    if bytes.len() > SESSION_LIMIT {
        return Err(SessionFault {
            line: 0,
            kind: SessionKind::TooLong,
        });
    }
    let frame = read_frame(alloc, bytes)?;
    let loaded = load_board(alloc, frame.text, frame.setup.as_slice())?;
    let refusals = refusals_in(alloc, frame.setup.as_slice())?;
    Ok(Session {
        loaded,
        refusals,
        scripts: frame.scripts,
    })
}
