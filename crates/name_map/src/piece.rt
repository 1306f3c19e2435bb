ghost use Rattle.std.specs.Prelude.{◌≡◌, ◌*◌, ◌<◌, ◌≤◌, length, slice_index};
ghost use Rattle.name_map.specs.Inside.States.{piece_of, piece_at, pieces};

/// A piece of a name, from 0.
#[tactic(auto, unfolding(crate::specs::Inside::States::piece_of))]
pub(crate) fn piece_at(name: &[u8], k: usize) -> [u8; 8]
    requires { 7 * k ≤ length name.now }
    ensures { result ≡ piece_at name.now k }
{
    let (_, rest) = name.split_at(7 * k);
    let (piece, _) = rest.split_at(rest.len().min(7));
    piece_of(piece)
}

/// Up to seven bytes, filled up with zeros, and how many they are.
#[tactic(auto, unfolding(crate::specs::Inside::States::piece_of))]
pub(crate) fn piece_of(bytes: &[u8]) -> [u8; 8]
    requires { length bytes.now < 8 }
    ensures { result ≡ piece_of bytes.now }
{
    [
        byte(bytes, 0),
        byte(bytes, 1),
        byte(bytes, 2),
        byte(bytes, 3),
        byte(bytes, 4),
        byte(bytes, 5),
        byte(bytes, 6),
        bytes.len() as u8,
    ]
}

/// The byte at a place, or 0 behind the last.
fn byte(bytes: &[u8], at: usize) -> u8
    ensures { result ≡ slice_index bytes.now at }
{
    if at < bytes.len() { bytes[at] } else { 0 }
}

/// How many pieces a name has.
pub(crate) fn pieces(name: &[u8]) -> usize
    ensures { result ≡ pieces name.now }
{
    name.len().saturating_sub(1) / 7 + 1
}
