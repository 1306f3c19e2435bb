ghost use Rattle.std.specs.Prelude.{◌≡◌, ℕ, List, None, Some, true, false, bytes_eq, if◌then◌else◌, IfNone, IfOk, IfSome, OnOk};
ghost use Rattle.std.specs.List.{list_all};
ghost use Rattle.board.specs.Valid.{IsValid};
ghost use Rattle.script.specs.RailNames.{is_name, is_printed, rail_named, AreNamesOf};

use board::{Board, Name, RailId};
use indexmap::IndexMap;
use std::alloc::{AllocError, Global};
use std::str;

/// Whether a byte is printed, and no blank.
fn is_printed(byte: u8) -> bool
    ensures { result ≡ is_printed byte }
{
    0x21 <= byte && byte <= 0x7e
}

fn are_printed(bytes: &[u8]) -> bool
    ensures { result ≡ list_all is_printed bytes.now }
{
    bytes.iter().all(|byte| is_printed(*byte))
}

/// Whether a rail may have the word as its name.
fn is_name(word: &[u8]) -> bool
    ensures { result ≡ is_name word.now }
{
    word.len() <= 64 && are_printed(word)
}

/// The name with these bytes, where a rail may have it.
fn name_of(word: &[u8]) -> Option<Name>
    ensures some { IfSome result (λ name. (name.bytes ≡ word.now) × (is_name word.now ≡ true)) }
    ensures none { IfNone result (is_name word.now ≡ false) }
{
    if !is_name(word) {
        return None;
    }
    let text = str::from_utf8(word).ok()?;
    Name::from(text).ok()
}

/// The rail that a word names.
pub(crate) fn rail_named(names: &IndexMap<Name, RailId>, word: &[u8]) -> Option<RailId>
    ensures { result ≡ rail_named names.now.entries word.now }
{
    match name_of(word) {
        Some(name) => names.get(&name).copied(),
        None => None,
    }
}

/// From now on this name names this rail.
fn put(names: &mut IndexMap<Name, RailId>, name: Name, r: RailId) -> Result<(), AllocError>
    requires { is_name name.bytes ≡ true }
    ensures { OnOk result ((word : List ℕ) → rail_named names.new.entries word ≡ (if bytes_eq name.bytes word then Some r else rail_named names.old.entries word)) }
{
    match names.insert(name, r) {
        Ok(_) => Ok(()),
        Err(_) => Err(AllocError),
    }
}

/// The names of a board's rails, each with the number of its rail.
pub fn names_of(alloc: Global, board: &Board) -> Result<IndexMap<Name, RailId>, AllocError>
    requires { IsValid board.now }
    ensures { IfOk result (λ names. AreNamesOf board.now names.entries) }
{
    let mut names = IndexMap::new(alloc);
    for (at, rail) in board.rails.as_slice().iter().enumerate() {
        prove!(rail.name.len() <= 64);
        put(&mut names, rail.name, RailId(at as u16))?;
    }
    Ok(names)
}
