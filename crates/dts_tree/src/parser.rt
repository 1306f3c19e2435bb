ghost use Rattle.std.specs.Prelude.{◌≡◌, ◌≢◌, ◌≤◌, length, IfOk, IfErr};
ghost use Rattle.dts_lex.specs.Lex.{lexed};
ghost use Rattle.dts_tree.specs.Outcome.{IsOutcome};

use crate::fault::TreeFault;
use crate::reading::read;
use crate::tree::{Tree, tree_of};
use dts_lex::Token;
use dts_lex::laws::spans_rise;
use std::alloc::Global;

/// The tree of a text, or its first fault from the left; a reference in a value to a label that no
/// node has comes after all others. The tokens are those that `lex` gives for the text. At `Memory`
/// nothing is said of the text.
pub fn parse(alloc: Global, text: &[u8], tokens: &[Token]) -> Result<Tree, TreeFault>
    requires short { length text.now ≤ 4294967295 }
    requires lexed { lexed text.now ≡ Ok tokens.now }
    ensures tree { IfOk result (λ tree. IsOutcome text.now tokens.now (Ok tree)) }
    ensures fault { IfErr result (λ fault. fault ≢ TreeFault.Memory → IsOutcome text.now tokens.now (Err fault)) }
{
    spans_rise();
    let reader = read(alloc, text, tokens)?;
    if !reader.may_end() {
        return Err(TreeFault::Syntax(text.len() as u32));
    }
    let (store, pieces) = reader.into_set();
    tree_of(alloc, text, store, pieces)
}
