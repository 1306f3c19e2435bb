ghost use Rattle.std.specs.Prelude.{◌≡◌, ◌<◌, ◌≤◌, map, string_bytes, length, IfOk, IfSome};
ghost use Rattle.board_nodes.specs.Rails.{printed, printed_byte, name_at};
ghost use Rattle.board_nodes.specs.Faults.{long_name, two_names};
ghost use Rattle.board_nodes.specs.Inside.Drafts.{name_of, same_behind};

use crate::draft::Draft;
use dts_nodes::{Form, first_string};
use dts_tree::Tree;
use std::alloc::{AllocError, Global};

/// The name of the rail of a node.
pub(crate) fn name_of(alloc: Global, tree: &Tree, node: u32) -> Result<String, AllocError>
    requires { node < length tree.now }
    ensures { IfOk result (λ name. string_bytes name ≡ name_at tree.now node) }
{
    if let Form::Is(name) = first_string(alloc, tree, node, b"regulator-name")? {
        if !name.is_empty() {
            return printed(alloc, name.as_slice());
        }
    }
    printed(alloc, tree.name(node))
}

/// The bytes, with `_` for each that isn't printed and for each blank.
fn printed(alloc: Global, bytes: &[u8]) -> Result<String, AllocError>
    ensures { IfOk result (λ name. string_bytes name ≡ printed bytes.now) }
{
    let mut name = String::new(alloc);
    for byte in bytes {
        name.push(char::from(printed_byte(*byte)))?;
    }
    Ok(name)
}

fn printed_byte(byte: u8) -> u8
    ensures value { result ≡ printed_byte byte }
    ensures ascii { result < 128 }
{
    if 0x21 <= byte && byte <= 0x7e {
        byte
    } else {
        b'_'
    }
}

/// The first rail whose name has more than 64 bytes.
pub(crate) fn long_name(drafts: &[Draft]) -> Option<u16>
    requires { length drafts.now ≤ 64 }
    ensures { result ≡ long_name (map name_of drafts.now) }
{
    let mut rail = 0;
    for draft in drafts {
        if draft.name.len() > 64 {
            return Some(rail);
        }
        rail += 1;
    }
    None
}

/// The first two rails that have one name.
pub(crate) fn two_names(drafts: &[Draft]) -> Option<(u16, u16)>
    requires { length drafts.now ≤ 64 }
    ensures { result ≡ two_names (map name_of drafts.now) }
{
    for a in 0..drafts.len() {
        if let Some(b) = same_behind(drafts, a) {
            return Some((a as u16, b as u16));
        }
    }
    None
}

/// The first rail behind number `a` that has the same name.
fn same_behind(drafts: &[Draft], a: usize) -> Option<usize>
    requires { a < length drafts.now }
    ensures same { result ≡ same_behind (map name_of drafts.now) a }
    ensures below { IfSome result (λ b. b < length drafts.now) }
{
    for b in a + 1..drafts.len() {
        if drafts[a].name == drafts[b].name {
            return Some(b);
        }
    }
    None
}
