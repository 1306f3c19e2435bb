//! What a caller may know of each table.
ghost use Rattle.linear_range.specs.LinearRange.{IsSound};
ghost use Rattle.linear_range.specs.Laws.{ListsValues, SelectorsRise, IsBounded, PicksHigh, PicksLow};

use crate::RangeTable;

/// The laws of a table: its ranges are in order, its pairs are written out by rising selectors,
/// and the picks among them are the least and the greatest.
pub fn laws_of<const N: usize>(table: &RangeTable<N>)
    ensures sound { IsSound N table.now }
    ensures listed { ListsValues table.now }
    ensures rising { SelectorsRise table.now }
    ensures bounded { IsBounded table.now }
    ensures high { PicksHigh table.now }
    ensures low { PicksLow table.now }
{
    table.know_sound();
    let _ = table.count();
}
