ghost use Rattle.std.specs.Prelude.{ℕ, ◌≡◌, ◌≢◌, ◌+◌, ◌^◌, ◌<◌, List, [], ◌∷◌, ◌++◌, map, codes, decimal, IfSome, IfNone, IsTrue, ◌↔◌};
ghost use Rattle.rows.specs.declared.call.Call.{Call};
ghost use Rattle.rows.specs.Words.{spaced};
ghost use Rattle.session.specs.Script.{call_line, IsScript, Uses};

use board::{Handle, RailId};
use rows::Call;
use rows::reading::{after_prefix, before_suffix, parse_handle, parse_number_pair};

/// The call that opens a handle on the rail `core`.
fn parse_open(line: &[u8]) -> Option<Call>
    ensures some { IfSome result (λ call. IsScript (call ∷ []) × (line.now ≡ call_line call)) }
    ensures none { IfNone result ((call : Call) → IsScript (call ∷ []) → line.now ≢ call_line call) }
{
    let name = before_suffix(after_prefix(line, b"open ")?, b" core")?;
    let handle = parse_handle(name)?;
    Some(Call::Open {
        handle,
        rail: RailId(0),
        exclusive: false,
    })
}

/// The two bounds of the `set` on the handle of this name.
fn parse_set(line: &[u8], name: &[u8]) -> Option<(u32, u32)>
    ensures some { IfSome result (λ bounds. line.now ≡ spaced (codes "set" ∷ name.now ∷ decimal bounds.0 ∷ decimal bounds.1 ∷ [])) }
    ensures none { IfNone result ((lo hi : ℕ) → lo < 2 ^ 32 → hi < 2 ^ 32 → line.now ≢ spaced (codes "set" ∷ name.now ∷ decimal lo ∷ decimal hi ∷ [])) }
{
    let words = after_prefix(line, b"set ")?;
    let words = after_prefix(words, name)?;
    let words = after_prefix(words, b" ")?;
    parse_number_pair(words)
}

/// Whether the line is the `get` on the handle of this name.
fn is_get(line: &[u8], name: &[u8]) -> bool
    ensures { IsTrue result ↔ (line.now ≡ spaced (codes "get" ∷ name.now ∷ [])) }
{
    match after_prefix(line, b"get ") {
        Some(rest) => rest == name,
        None => false,
    }
}

/// The call on an open handle.
fn parse_use(line: &[u8], handle: &Handle) -> Option<Call>
    ensures some { IfSome result (λ call. Uses handle.now.bytes call × (line.now ≡ call_line call)) }
    ensures none { IfNone result ((call : Call) → Uses handle.now.bytes call → line.now ≢ call_line call) }
{
    let name = handle.as_str().as_bytes();
    if is_get(line, name) {
        return Some(Call::Get { handle: *handle });
    }
    let (lo, hi) = parse_set(line, name)?;
    Some(Call::Set {
        handle: *handle,
        lo,
        hi,
    })
}

/// The call that goes on with a script.
pub(crate) fn next_call(script: &[Call], line: &[u8]) -> Option<Call>
    requires { IsScript script.now }
    ensures some { IfSome result (λ call. IsScript (script.now ++ call ∷ []) × (line.now ≡ call_line call)) }
    ensures none { IfNone result ((calls : List Call) (more : List (List ℕ)) → IsScript calls → map call_line calls ≢ map call_line script.now ++ line.now ∷ more) }
{
    match script.first() {
        None => parse_open(line),
        Some(Call::Open { handle, .. }) => parse_use(line, handle),
        Some(_) => None,
    }
}
