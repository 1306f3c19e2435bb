ghost use Rattle.std.specs.Prelude.{◌≡◌, ◌≤◌, ◌<◌, length, slice_index};
ghost use Rattle.dts_lex.specs.Piece as piece;
ghost use Rattle.dts_lex.specs.Shape.{is_last};

use crate::bytes::{is_blank, is_label_start, is_sign};
use crate::class::Class;
use crate::fault::LexFault;
use crate::number::{NumberFault, number_of};
use crate::scan::{begins_line, comment_end, run_end, string_end};
use crate::token::{Kind, Token};

/// What stands at a place of the text, and where it ends.
#[derive(Clone, Copy)]
pub(crate) enum Piece {
    /// A blank or a comment.
    Gap(usize),
    /// A token that others may follow.
    Token(Kind, usize),
    /// A token behind which nothing is looked at.
    Last(Kind, usize),
}

/// What the text has at `at`. The tokens before it say whether a comma would stand alone there and
/// whether it is between `<` and `>`.
#[tactic(auto, unfolding(crate::specs::Piece::piece_at))]
pub(crate) fn piece_at(
    text: &[u8],
    at: usize,
    comma_alone: bool,
    in_cells: bool,
) -> Result<Piece, LexFault>
    requires inside { at < length text.now }
    requires short { length text.now ≤ 4294967295 }
    ensures { result ≡ piece.piece_at text.now comma_alone in_cells at }
{
    let b = text[at];
    if is_blank(b) {
        Ok(Piece::Gap(at + 1))
    } else if b == b'/' {
        slash_at(text, at)
    } else if b == b'"' {
        let end = string_end(text, at)?;
        Ok(Piece::Token(Kind::Text, end))
    } else if b == b'&' {
        ref_at(text, at)
    } else if b == b'(' {
        Ok(Piece::Last(Kind::Sign, at + 1))
    } else if is_sign(b) || b == b',' && comma_alone {
        Ok(Piece::Token(Kind::Sign, at + 1))
    } else {
        word_at(text, at, in_cells)
    }
}

/// A comment, a directive or a lone slash.
fn slash_at(text: &[u8], at: usize) -> Result<Piece, LexFault>
    requires inside { at < length text.now }
    requires short { length text.now ≤ 4294967295 }
    ensures { result ≡ piece.slash_at text.now at }
{
    let next = byte_at(text, at + 1);
    if next == b'/' {
        return Ok(Piece::Gap(run_end(Class::Line, text, at + 1)));
    }
    if next == b'*' {
        return match comment_end(text, at + 2) {
            Some(end) => Ok(Piece::Gap(end)),
            None => Err(LexFault::Unclosed(at as u32)),
        };
    }
    let close = run_end(Class::Directive, text, at + 1);
    if byte_at(text, close) != b'/' {
        Ok(Piece::Token(Kind::Sign, at + 1))
    } else if is_version(&text[at..close + 1]) {
        Ok(Piece::Token(Kind::Directive, close + 1))
    } else {
        Ok(Piece::Last(Kind::Directive, close + 1))
    }
}

/// A reference by a label, or the start of one by a path, behind which nothing is looked at.
#[tactic(auto, unfolding(crate::specs::Piece::ref_at))]
fn ref_at(text: &[u8], at: usize) -> Result<Piece, LexFault>
    requires inside { at < length text.now }
    requires short { length text.now ≤ 4294967295 }
    ensures { result ≡ piece.ref_at text.now at }
{
    let next = byte_at(text, at + 1);
    if next == b'{' {
        Ok(Piece::Last(Kind::Sign, at + 2))
    } else if is_label_start(next) {
        Ok(Piece::Token(Kind::Ref, run_end(Class::Label, text, at + 1)))
    } else {
        Err(LexFault::BadChar(at as u32))
    }
}

/// A word or a number, or a byte that begins no token.
#[tactic(auto, using(crate::proofs::ScanLemmas::run_end_bounds), unfolding(crate::specs::Piece::word_at))]
fn word_at(text: &[u8], at: usize, in_cells: bool) -> Result<Piece, LexFault>
    requires inside { at < length text.now }
    requires short { length text.now ≤ 4294967295 }
    ensures { result ≡ piece.word_at text.now in_cells at }
{
    let end = run_end(Class::Word, text, at);
    if end == at {
        return Err(LexFault::BadChar(at as u32));
    }
    let word = &text[at..end];
    if in_cells && text[at].is_ascii_digit() {
        return match number_of(word) {
            Ok(_) => Ok(Piece::Token(Kind::Number, end)),
            Err(NumberFault::Malformed) => Err(LexFault::BadChar(at as u32)),
            Err(NumberFault::TooWide) => Err(LexFault::NumberTooWide(at as u32)),
        };
    }
    if is_preprocessor(word) && begins_line(text, at) {
        Ok(Piece::Last(Kind::Word, end))
    } else {
        Ok(Piece::Token(Kind::Word, end))
    }
}

/// Whether nothing is looked at behind the token: a word of the preprocessor at the head of its
/// line, a directive other than `/dts-v1/`, `(` and `&{`.
pub fn is_last(text: &[u8], token: &Token) -> bool
    requires rises { token.now.start ≤ token.now.end }
    requires within { token.now.end ≤ length text.now }
    ensures { result ≡ is_last text.now token.now }
{
    let start = token.start as usize;
    let bytes = &text[start..token.end as usize];
    match token.kind {
        Kind::Word => is_preprocessor(bytes) && begins_line(text, start),
        Kind::Directive => !is_version(bytes),
        Kind::Sign => bytes == b"(".as_slice() || bytes == b"&{".as_slice(),
        Kind::Number | Kind::Text | Kind::Ref => false,
    }
}

/// The byte at a place, and 0 past the end.
fn byte_at(text: &[u8], at: usize) -> u8
    ensures { result ≡ slice_index text.now at }
{
    if at < text.len() { text[at] } else { 0 }
}

#[tactic(auto, unfolding(crate::specs::Piece::is_version))]
fn is_version(directive: &[u8]) -> bool
    ensures { result ≡ piece.is_version directive.now }
{
    directive == b"/dts-v1/".as_slice()
}

#[tactic(auto, unfolding(crate::specs::Piece::is_preprocessor))]
fn is_preprocessor(word: &[u8]) -> bool
    ensures { result ≡ piece.is_preprocessor word.now }
{
    let words = [
        b"#include".as_slice(),
        b"#define".as_slice(),
        b"#undef".as_slice(),
        b"#if".as_slice(),
        b"#ifdef".as_slice(),
        b"#ifndef".as_slice(),
        b"#else".as_slice(),
        b"#endif".as_slice(),
        b"#line".as_slice(),
        b"#error".as_slice(),
        b"#pragma".as_slice(),
    ];
    words.contains(&word)
}
