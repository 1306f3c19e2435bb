ghost use Rattle.std.specs.Prelude.{◌≡◌, ◌≢◌, ◌≤◌, length, IfOk, IfErr};
ghost use Rattle.dts_lex.specs.Lex.{SpansRise};
ghost use Rattle.dts_tree.specs.Inside.Reader.{Counted, Kept, view_of};
ghost use Rattle.dts_tree.specs.Inside.View.{take_all, view_start};

mod bytes;
mod reader;
mod spot;
mod symbol;

use crate::fault::TreeFault;
use dts_lex::Token;
use reader::Reader;
use std::alloc::Global;

/// Reads the tokens of a text, up to its first fault.
pub(crate) fn read(alloc: Global, text: &[u8], tokens: &[Token]) -> Result<Reader, TreeFault>
    requires short { length text.now ≤ 4294967295 }
    requires spans { SpansRise 0 (length text.now) tokens.now }
    ensures ok { IfOk result (λ reader. take_all text.now view_start tokens.now ≡ Ok (view_of text.now reader)) }
    ensures kept { IfOk result (λ reader. Kept reader) }
    ensures counted { IfOk result (λ reader. Counted (length text.now) reader) }
    ensures fault { IfErr result (λ fault. fault ≢ TreeFault.Memory → take_all text.now view_start tokens.now ≡ Err fault) }
{
    let mut reader = Reader::new(alloc);
    for token in tokens {
        reader.take(text, token)?;
    }
    Ok(reader)
}
