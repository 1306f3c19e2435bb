ghost use Rattle.std.specs.Prelude.{◌≡◌, ◌≤◌, ◌<◌, ◌+◌, ◌-◌, length, drop, take, slice_index};
ghost use Rattle.dts_lex.specs.Scan.{run_end, comment_end, string_end, begins_line};

use crate::bytes::{is_blank, is_escaped, is_plain};
use crate::class::Class;
use crate::fault::LexFault;

/// Where the run of the class ends that may begin at `at`.
pub(crate) fn run_end(class: Class, text: &[u8], at: usize) -> usize
    requires { at ≤ length text.now }
    ensures { result ≡ run_end class text.now at }
{
    let mut end = at;
    while end < text.len() && class.has(text[end]) {
        end += 1;
    }
    end
}

/// Where the comment ends whose inside begins at `from`: behind its `*/`.
#[tactic(auto, using(crate::proofs::ScanLemmas::comment_end_past))]
pub(crate) fn comment_end(text: &[u8], from: usize) -> Option<usize>
    requires { from ≤ length text.now }
    ensures { result ≡ comment_end from (drop from text.now) }
{
    let mut at = from;
    while at + 1 < text.len() {
        if text[at] == b'*' && text[at + 1] == b'/' {
            return Some(at + 2);
        }
        at += 1;
    }
    None
}

/// Where the string ends whose quote stands at `quote`: behind its closing quote.
pub(crate) fn string_end(text: &[u8], quote: usize) -> Result<usize, LexFault>
    requires inside { quote < length text.now }
    requires short { length text.now ≤ 4294967295 }
    ensures { result ≡ string_end quote (quote + 1) (drop (quote + 1) text.now) }
{
    let mut at = quote + 1;
    while at < text.len() {
        let b = text[at];
        if b == b'"' {
            return Ok(at + 1);
        } else if b == b'\\' {
            if at + 1 == text.len() {
                return Err(LexFault::Unclosed(quote as u32));
            }
            if !is_escaped(text[at + 1]) {
                return Err(LexFault::BadChar(at as u32));
            }
            at += 2;
        } else if is_plain(b) {
            at += 1;
        } else {
            return Err(LexFault::BadChar(at as u32));
        }
    }
    Err(LexFault::Unclosed(quote as u32))
}

/// Whether the line of `at` has blanks alone before it.
pub(crate) fn begins_line(text: &[u8], at: usize) -> bool
    requires { at ≤ length text.now }
    ensures { result ≡ begins_line (take at text.now) }
{
    let mut start = at;
    while start > 0 {
        let b = text[start - 1];
        if b == b'\n' {
            return true;
        }
        if !is_blank(b) {
            return false;
        }
        start -= 1;
    }
    true
}
