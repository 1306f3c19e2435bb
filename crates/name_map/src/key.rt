ghost use Rattle.std.specs.Prelude.{◌≡◌, ◌+◌, ◌<◌, ◌≤◌, Some, length, take, IfOk, OnOk};
ghost use Rattle.name_map.specs.Inside.Keys.{IsGrown, key_of, numbered};

use crate::edges::{Edges, new_state, state_of};
use crate::piece::piece_of;
use std::alloc::AllocError;

/// An owner and a code for the name, of twelve bytes together.
pub(crate) type Key = (u32, [u8; 8]);

/// The short key of an owner and a name, where they have one.
pub(crate) fn key_of(edges: &Edges, owner: u32, name: &[u8]) -> Option<Key>
    requires { length edges.now < 4294967296 }
    ensures { result ≡ key_of edges.now (owner, name.now) }
{
    if name.len() < 8 {
        return Some((owner, piece_of(name)));
    }
    match state_of(edges, name) {
        Some(state) => Some((owner, numbered(state))),
        None => None,
    }
}

/// The short key that an owner and a name have from now on. At `Err` there may be more edges, behind
/// those that were there.
pub(crate) fn new_key(edges: &mut Edges, owner: u32, name: &[u8]) -> Result<Key, AllocError>
    requires room { length edges.old + length name.now ≤ 4294967295 }
    ensures key { IfOk result (λ key. key_of edges.new (owner, name.now) ≡ Some key) }
    ensures grown { OnOk result (IsGrown edges.old edges.new name.now) }
    ensures front { take (length edges.old) edges.new ≡ edges.old }
{
    if name.len() < 8 {
        return Ok((owner, piece_of(name)));
    }
    let state = new_state(edges, name)?;
    Ok((owner, numbered(state)))
}

/// The code of a state.
#[tactic(auto, unfolding(crate::specs::Inside::Keys::numbered))]
fn numbered(state: u32) -> [u8; 8]
    ensures { result ≡ numbered state }
{
    [
        (state % 256) as u8,
        (state / 256 % 256) as u8,
        (state / 65536 % 256) as u8,
        (state / 16777216) as u8,
        0,
        0,
        0,
        8,
    ]
}
