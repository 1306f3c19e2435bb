ghost use Rattle.std.specs.Prelude.{◌≡◌, ◌↔◌, Err, IfOk, IsOk};
ghost use Rattle.rows.specs.declared.call.Call.{Call as TheCall};
ghost use Rattle.script.specs.CallLines.{IsBad, IsCallOf, OpensNoRail};

use crate::line_fault::LineFault;
use crate::rail_names::rail_named;
use board::{Name, RailId};
use indexmap::IndexMap;
use rows::Call;
use rows::reading::parse_call;

/// The call of a line. `names` has the rails that a line may name, as `names_of` gives them.
pub fn read_call(line: &[u8], names: &IndexMap<Name, RailId>) -> Result<Call, LineFault>
    ensures ok { IfOk result (IsCallOf names.now.entries line.now) }
    ensures read { (call : TheCall) → IsCallOf names.now.entries line.now call → IsOk result }
    ensures bad_line { (result ≡ Err LineFault.BadLine) ↔ IsBad line.now }
    ensures no_rail { (result ≡ Err LineFault.NoRail) ↔ OpensNoRail names.now.entries line.now }
{
    let Some((call, word)) = parse_call(line) else {
        return Err(LineFault::BadLine);
    };
    match call {
        Call::Open {
            handle,
            rail: _,
            exclusive,
        } => match rail_named(names, word) {
            Some(rail) => Ok(Call::Open {
                handle,
                rail,
                exclusive,
            }),
            None => Err(LineFault::NoRail),
        },
        other => Ok(other),
    }
}
