ghost use Rattle.std.specs.Prelude.{◌≡◌, IfOk, string_bytes};
ghost use Rattle.board_draft.specs.Text.{text_of};
ghost use Rattle.session.specs.Text.{kind_text};

use crate::fault::{SessionFault, SessionKind};
use board_draft::BoardFault;
use std::alloc::{AllocError, Global};

/// The words of a board's refusal.
fn board_text(alloc: Global, fault: BoardFault) -> Result<String, AllocError>
    ensures { IfOk result (λ text. string_bytes text ≡ text_of fault) }
{
    let mut bytes = Vec::new(alloc);
    fault.text(alloc, &mut bytes)?;
    Ok(String::from_utf8(bytes).unwrap())
}

/// The words of a kind.
fn kind_text(alloc: Global, kind: SessionKind) -> Result<String, AllocError>
    ensures { IfOk result (λ text. string_bytes text ≡ kind_text kind) }
{
    match kind {
        SessionKind::TooLong => format!(in alloc; "toolong"),
        SessionKind::BadSession => format!(in alloc; "badsession"),
        SessionKind::NotYet => format!(in alloc; "notyet"),
        SessionKind::TooManyWorkers => format!(in alloc; "toomanyworkers"),
        SessionKind::TooManyLines => format!(in alloc; "toomanylines"),
        SessionKind::BadChar(at) => format!(in alloc; "badchar {at}"),
        SessionKind::Unclosed(at) => format!(in alloc; "unclosed {at}"),
        SessionKind::NumberTooWide(at) => format!(in alloc; "numbertoowide {at}"),
        SessionKind::Syntax(at) => format!(in alloc; "syntax {at}"),
        SessionKind::NoLabel(at) => format!(in alloc; "nolabel {at}"),
        SessionKind::TwoLabels(at) => format!(in alloc; "twolabels {at}"),
        SessionKind::NotSupported(at) => format!(in alloc; "notsupported {at}"),
        SessionKind::TooDeep(at) => format!(in alloc; "toodeep {at}"),
        SessionKind::Board(fault) => board_text(alloc, fault),
        SessionKind::BadReg => format!(in alloc; "badreg"),
        SessionKind::NoVector(r) => format!(in alloc; "novector {r}"),
        SessionKind::Memory => Ok(String::new(alloc)),
    }
}

impl SessionFault {
    ghost use Rattle.std.specs.Prelude.{◌≡◌, IfOk, string_bytes};
    ghost use Rattle.session.specs.Text.{refusal_text};

    /// The line that is written for it, `refused LINE TEXT` and a newline.
    pub fn text(&self, alloc: Global) -> Result<String, AllocError>
        ensures { IfOk result (λ text. string_bytes text ≡ refusal_text self.now) }
    {
        let line = self.line;
        let kind = kind_text(alloc, self.kind)?;
        let text = format!(in alloc; "refused {line} {kind}")?;
        format!(in alloc; "{text}\n")
    }
}
