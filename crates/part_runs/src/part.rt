/// A part that the program runs.
#[derive(Clone, Copy, Debug)]
pub(crate) enum Part {
    Rows,
    Count,
    Board,
    Ranges,
}

/// The part that a word names.
pub(crate) fn part_of(word: &str) -> Option<Part> {
    match word {
        "rows" => Some(Part::Rows),
        "count" => Some(Part::Count),
        "board" => Some(Part::Board),
        "ranges" => Some(Part::Ranges),
        _ => None,
    }
}
