use crate::escapes::unescaped;
use crate::found::{Asked, write_found};
use crate::part::part_of;
use crate::ranges::write_sum;
use std::alloc::{AllocError, Global};

/// What a row is about: what is found in a text, the sum over so many voltages, or the part that a word
/// of the command line names.
#[derive(Clone, Copy)]
enum Wanted<'a> {
    Found(Asked<'a>),
    Ranges,
    Word,
}

/// A row of the table, as it stands there.
#[derive(Clone, Copy)]
struct Row<'a> {
    asked: Wanted<'a>,
    text: &'a str,
    expected: &'a str,
}

/// A row is `tokens TEXT -> EXPECTED`, `tree TEXT -> EXPECTED`, `count TEXT -> EXPECTED`,
/// `walk TEXT -> EXPECTED`, `prefixes TEXT -> EXPECTED`, `board TEXT -> EXPECTED`,
/// `values TEXT -> PROPERTY -> EXPECTED`, `ranges ROUNDS -> SUM` or `word WORD -> PART`.
fn read(line: &str) -> Option<Row<'_>> {
    let (word, rest) = line.split_once(' ')?;
    let (text, rest) = rest.split_once(" -> ")?;
    let (asked, expected) = match word {
        "tokens" => (Wanted::Found(Asked::Tokens), rest),
        "tree" => (Wanted::Found(Asked::Tree), rest),
        "count" => (Wanted::Found(Asked::Count), rest),
        "walk" => (Wanted::Found(Asked::Walk), rest),
        "prefixes" => (Wanted::Found(Asked::Prefixes), rest),
        "board" => (Wanted::Found(Asked::Board), rest),
        "ranges" => (Wanted::Ranges, rest),
        "word" => (Wanted::Word, rest),
        "values" => {
            let (property, expected) = rest.split_once(" -> ")?;
            (Wanted::Found(Asked::Values(property)), expected)
        }
        _ => return None,
    };
    Some(Row {
        asked,
        text,
        expected,
    })
}

/// What was found, where it isn't what the row expects.
pub(crate) fn differing(alloc: Global, line: &str) -> Result<Option<String>, AllocError> {
    let mut found = String::new(alloc);
    let same = match read(line) {
        Some(row) => write_row(alloc, &mut found, &row)?,
        None => {
            found.push_str("no row")?;
            false
        }
    };
    Ok(if same { None } else { Some(found) })
}

/// Appends what is found, and answers whether it is what the row expects.
fn write_row(alloc: Global, found: &mut String, row: &Row<'_>) -> Result<bool, AllocError> {
    match row.asked {
        Wanted::Found(asked) => {
            let text = unescaped(alloc, row.text)?;
            write_found(alloc, found, asked, text.as_slice())?;
        }
        Wanted::Ranges => write_sum(found, row.text)?,
        Wanted::Word => write_part(found, row.text)?,
    }
    let expected = unescaped(alloc, row.expected)?;
    Ok(found.as_str().trim_end().as_bytes() == expected.as_slice())
}

/// Appends the part that a word names, or that the program tells how it is used.
fn write_part(found: &mut String, word: &str) -> Result<(), AllocError> {
    match part_of(word) {
        Some(part) => write!(found, "{part:?}"),
        None => found.push_str("usage"),
    }
}
