ghost use Rattle.std.specs.Prelude.{◌≡◌, IfSome, IfNone, IsTrue, ◌↔◌};
ghost use Rattle.std.specs.List.{list_all};
ghost use Rattle.rows.specs.Names.{is_letter, is_name_byte, IsHandleName};

use board::Handle;
use std::str;

fn is_letter(byte: u8) -> bool
    ensures { result ≡ is_letter byte }
{
    byte.is_ascii_lowercase()
}

fn is_name_byte(byte: u8) -> bool
    ensures { result ≡ is_name_byte byte }
{
    is_letter(byte) || byte.is_ascii_digit() || byte == b'_'
}

fn are_name_bytes(bytes: &[u8]) -> bool
    ensures { result ≡ list_all is_name_byte bytes.now }
{
    bytes.iter().all(|byte| is_name_byte(*byte))
}

fn is_handle_name(name: &[u8]) -> bool
    ensures { IsTrue result ↔ IsHandleName name.now }
{
    let Some((first, others)) = name.split_first() else {
        return false;
    };
    is_letter(*first) && others.len() < 16 && are_name_bytes(others)
}

/// The handle of this name.
pub fn parse_handle(name: &[u8]) -> Option<Handle>
    ensures some { IfSome result (λ handle. (handle.bytes ≡ name.now) × IsHandleName name.now) }
    ensures none { IfNone result (IsHandleName name.now → ⊥) }
{
    if !is_handle_name(name) {
        return None;
    }
    let text = str::from_utf8(name).ok()?;
    Handle::from(text).ok()
}
