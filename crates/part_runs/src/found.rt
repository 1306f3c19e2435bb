ghost use Rattle.std.specs.Prelude.{◌≡◌, ◌≤◌, length};
ghost use Rattle.dts_lex.specs.Lex.{lexed};

use crate::node::{write_count, write_nodes, write_values, write_walks};
use crate::rails::write_board;
use dts_lex::{Kind, Token, is_last, lex};
use dts_tree::parse;
use std::alloc::{AllocError, Global};

/// What a row asks of its text.
#[derive(Clone, Copy)]
pub(crate) enum Asked<'a> {
    /// Its tokens.
    Tokens,
    /// The nodes of its tree.
    Tree,
    /// How many tokens, nodes and properties it has.
    Count,
    /// The values of this property of its root.
    Values(&'a str),
    /// The way up from each node, and its properties.
    Walk,
    /// How long each beginning of it is that has a tree.
    Prefixes,
    /// The rails of its board.
    Board,
}

/// Appends what is found in a text, or its first fault.
pub(crate) fn write_found(
    alloc: Global,
    line: &mut String,
    asked: Asked<'_>,
    text: &[u8],
) -> Result<(), AllocError> {
    if text.len() > 4_294_967_295 {
        return line.push_str("TooLong");
    }
    if let Asked::Prefixes = asked {
        return write_prefixes(alloc, line, text);
    }
    match lex(alloc, text) {
        Ok(tokens) => match asked {
            Asked::Tokens => write_tokens(line, text, tokens.as_slice()),
            _ => write_parsed(alloc, line, asked, text, tokens.as_slice()),
        },
        Err(fault) => write!(line, "{fault:?}"),
    }
}

fn write_prefixes(alloc: Global, line: &mut String, text: &[u8]) -> Result<(), AllocError>
    requires { length text.now ≤ 4294967295 }
{
    for length in 0..text.len() + 1 {
        if is_tree(alloc, &text[..length]) {
            write!(line, "{length} ")?;
        }
    }
    Ok(())
}

fn is_tree(alloc: Global, text: &[u8]) -> bool
    requires { length text.now ≤ 4294967295 }
{
    match lex(alloc, text) {
        Ok(tokens) => parse(alloc, text, tokens.as_slice()).is_ok(),
        Err(_) => false,
    }
}

/// Each token as its kind's letter and its places, with a mark where nothing is looked at behind it.
fn write_tokens(line: &mut String, text: &[u8], tokens: &[Token]) -> Result<(), AllocError> {
    for t in tokens {
        let kind = letter_of(t.kind);
        let start = t.start;
        let end = t.end;
        let inside = start <= end && end as usize <= text.len();
        let mark = if inside && is_last(text, t) { "!" } else { "" };
        write!(line, "{kind}{start}-{end}{mark} ")?;
    }
    Ok(())
}

fn letter_of(kind: Kind) -> char {
    match kind {
        Kind::Word => 'w',
        Kind::Number => 'n',
        Kind::Text => 't',
        Kind::Directive => 'd',
        Kind::Ref => 'r',
        Kind::Sign => 's',
    }
}

/// Appends what is asked of the tree of a text.
fn write_parsed(
    alloc: Global,
    line: &mut String,
    asked: Asked<'_>,
    text: &[u8],
    tokens: &[Token],
) -> Result<(), AllocError>
    requires short { length text.now ≤ 4294967295 }
    requires lexed { lexed text.now ≡ Ok tokens.now }
{
    match parse(alloc, text, tokens) {
        Ok(tree) => match asked {
            Asked::Values(property) => write_values(alloc, line, &tree, property.as_bytes()),
            Asked::Count => write_count(line, &tree, tokens.len()),
            Asked::Walk => write_walks(line, &tree),
            Asked::Board => write_board(alloc, line, &tree),
            _ => write_nodes(line, &tree),
        },
        Err(fault) => write!(line, "{fault:?}"),
    }
}
