//! What a caller may know of each list.
ghost use Rattle.voltage_table.specs.VoltList.{IsSound};
ghost use Rattle.voltage_table.specs.Laws.{ListsValues, SelectorsRise, IsBounded, PicksHigh, PicksLow};

use crate::VoltList;

/// The laws of a list: it has a value and room for no more than its selectors, its pairs are
/// written out by rising selectors, and the picks among them are the least and the greatest.
pub fn laws_of<const N: usize>(list: &VoltList<N>)
    ensures sound { IsSound N list.now }
    ensures listed { ListsValues list.now }
    ensures rising { SelectorsRise list.now }
    ensures bounded { IsBounded list.now }
    ensures high { PicksHigh list.now }
    ensures low { PicksLow list.now }
{
    list.know_values();
}
