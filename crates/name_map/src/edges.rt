ghost use Rattle.std.specs.Prelude.{◌≡◌, ◌+◌, ℕ, List, ◌<◌, ◌≤◌, Some, length, take, IfOk};
ghost use Rattle.name_map.specs.Inside.States.{state_of};

use crate::piece::{piece_at, pieces};
use ordered_map::OrderedMap;
use std::alloc::AllocError;

/// By their states and pieces. The edge at a place leads to the state of that number and one more.
pub(crate) type Edges = OrderedMap<(u32, [u8; 8]), ()>;

/// The state that a name leads to, where it leads to one.
pub(crate) fn state_of(edges: &Edges, name: &[u8]) -> Option<u32>
    requires { length edges.now < 4294967296 }
    ensures { result ≡ state_of edges.now name.now }
{
    let mut state = 0;
    for k in 0..pieces(name) {
        match edges.place(&(state, piece_at(name, k))) {
            Some(place) => state = place + 1,
            None => return None,
        }
    }
    Some(state)
}

/// The state that a name leads to from now on, and each other name that led to one leads there still.
/// At `Err` there may be more edges, behind those that were there.
pub(crate) fn new_state(edges: &mut Edges, name: &[u8]) -> Result<u32, AllocError>
    requires long { 8 ≤ length name.now }
    requires room { length edges.old + length name.now ≤ 4294967295 }
    ensures few { length edges.new ≤ length edges.old + length name.now }
    ensures front { take (length edges.old) edges.new ≡ edges.old }
    ensures stays { (state : ℕ) → state_of edges.old name.now ≡ Some state → edges.new ≡ edges.old }
    ensures state { IfOk result (λ state. state_of edges.new name.now ≡ Some state) }
    ensures kept { (q : List ℕ) (state : ℕ) → state_of edges.old q ≡ Some state → state_of edges.new q ≡ Some state }
{
    let mut state = 0;
    for k in 0..pieces(name) {
        state = edges.keep((state, piece_at(name, k)), ())? + 1;
    }
    Ok(state)
}
