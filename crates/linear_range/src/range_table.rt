ghost use Rattle.std.specs.Prelude.{◌≡◌, ◌≤◌, IfOk, length};
ghost use Rattle.std.specs.Option.{option_map};
ghost use Rattle.std.specs.Result.{result_err};
ghost use Rattle.linear_range.specs.Values.{value_of, values, selectors_end, pick_high, pick_low};
ghost use Rattle.linear_range.specs.Pick.{pair_of};
ghost use Rattle.linear_range.specs.LinearRange.{IsSound};
ghost use Rattle.linear_range.specs.RangeTable.{first_fault};

use crate::pick::{greater, lesser};
use crate::table_fault::{first_overlap, first_reversed, first_too_high};
use crate::{LinearRange, Pick, TableFault};
use arrayvec::ArrayVec;
use std::marker::Model;

/// At most `N` ranges with their values; no two have a selector in common. Contracts see the
/// ranges in order.
#[derive(Drop)]
pub struct RangeTable<const N: usize> {
    ranges: ArrayVec<LinearRange, N>,
}

impl<const N: usize> Model for RangeTable<N> {
    ghost use Rattle.std.specs.Prelude.{List};
    ghost use Rattle.linear_range.specs.declared.linear_range.LinearRange.{LinearRange};
    ghost use Rattle.linear_range.specs.LinearRange.{IsSound};

    ghost Value = { List LinearRange };

    ghost view = { λ t. t.ranges.items };

    ghost invariant = { λ t. IsSound N t.ranges.items };
}

impl<const N: usize> RangeTable<N> {
    /// A table of these ranges, or the first fault that they have.
    ///
    /// Two ranges may have the same values: only their selectors must differ.
    pub fn new(ranges: &[LinearRange]) -> Result<RangeTable<N>, TableFault>
        ensures ok { IfOk result (λ table. table ≡ ranges.now) }
        ensures refused { result_err result ≡ first_fault N ranges.now }
    {
        let Ok(kept) = ArrayVec::try_from(ranges) else {
            return Err(TableFault::TooMany(ranges.len()));
        };
        if let Some(at) = first_reversed(ranges) {
            return Err(TableFault::Reversed(at));
        }
        if let Some(at) = first_too_high(ranges) {
            return Err(TableFault::TooHigh(at));
        }
        if let Some((first, second)) = first_overlap(ranges) {
            return Err(TableFault::Overlap(first, second));
        }
        Ok(RangeTable { ranges: kept })
    }

    /// The value of a selector in µV, which is that of the range that has it.
    pub fn value(&self, sel: u16) -> Option<u32>
        ensures { result ≡ value_of self.now sel }
    {
        for range in &self.ranges {
            if let Some(uv) = range.value(sel) {
                return Some(uv);
            }
        }
        None
    }

    /// The least value not below `uv` µV, at its first selector.
    ///
    /// It is the least of all ranges: where a first range has 800000 µV and a second 750000 µV,
    /// 700000 µV picks from the second.
    pub fn selector_high(&self, uv: u32) -> Option<Pick>
        ensures { option_map pair_of result ≡ pick_high (values self.now) uv }
    {
        let mut best = None;
        for range in self.ranges.as_slice() {
            best = lesser(best, range.pick_high(uv));
        }
        best
    }

    /// The greatest value not above `uv` µV, at its first selector.
    pub fn selector_low(&self, uv: u32) -> Option<Pick>
        ensures { option_map pair_of result ≡ pick_low (values self.now) uv }
    {
        let mut best = None;
        for range in self.ranges.as_slice() {
            best = greater(best, range.pick_low(uv));
        }
        best
    }

    /// The number of selectors with a value.
    pub fn count(&self) -> u32
        ensures value { result ≡ length (values self.now) }
        ensures within { selectors_end self.now ≤ 65536 }
    {
        let mut count = 0;
        for range in self.ranges.as_slice() {
            count += range.count();
        }
        count
    }

    pub(crate) fn know_sound(&self)
        ensures { IsSound N self.now }
    {
        let _ = &self.ranges;
    }

    /// The same ranges in a table with room for more.
    pub fn widen<const M: usize>(&self) -> RangeTable<M>
        requires { N ≤ M }
        ensures { result ≡ self.now }
    {
        RangeTable {
            ranges: ArrayVec::try_from(self.ranges.as_slice()).unwrap(),
        }
    }
}
