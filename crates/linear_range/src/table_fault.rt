ghost use Rattle.std.specs.Prelude.{◌≡◌};
ghost use Rattle.std.specs.List.{position};
ghost use Rattle.linear_range.specs.LinearRange.{is_reversed, is_too_high, share_selector};
ghost use Rattle.linear_range.specs.RangeTable.{first_overlap};

use crate::LinearRange;

/// Why a list of ranges is no table. The numbers of ranges count from 0.
#[derive(Clone, Copy, Debug, PartialEq, Eq)]
pub enum TableFault {
    /// So many ranges, which is more than the table holds.
    TooMany(usize),
    /// The first range whose least selector is above its greatest.
    Reversed(usize),
    /// The first range whose greatest value is above 4294967295 µV.
    TooHigh(usize),
    /// The first range that shares a selector with a later one, and the first such later one.
    Overlap(usize, usize),
}

pub(crate) fn first_reversed(ranges: &[LinearRange]) -> Option<usize>
    ensures { result ≡ position is_reversed ranges.now }
{
    ranges.iter().position(|range| range.is_reversed())
}

pub(crate) fn first_too_high(ranges: &[LinearRange]) -> Option<usize>
    ensures { result ≡ position is_too_high ranges.now }
{
    ranges.iter().position(|range| range.is_too_high())
}

pub(crate) fn first_overlap(ranges: &[LinearRange]) -> Option<(usize, usize)>
    ensures { result ≡ first_overlap 0 ranges.now }
{
    for (first, range) in ranges.iter().enumerate() {
        if let Some(after) = first_sharing(range, &ranges[first + 1..]) {
            return Some((first, first + 1 + after));
        }
    }
    None
}

fn first_sharing(range: &LinearRange, later: &[LinearRange]) -> Option<usize>
    ensures { result ≡ position (share_selector range.now) later.now }
{
    later.iter().position(|other| range.shares(other))
}
