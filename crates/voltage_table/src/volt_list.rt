ghost use Rattle.std.specs.Prelude.{◌≡◌, ◌^◌, ◌<◌, ◌≤◌, IfOk, length};
ghost use Rattle.std.specs.List.{All};
ghost use Rattle.std.specs.Option.{option_map};
ghost use Rattle.std.specs.Result.{result_err};
ghost use Rattle.voltage_table.specs.Values.{value_of, values, pick_high, pick_low};
ghost use Rattle.voltage_table.specs.ListPick.{pair_of};
ghost use Rattle.voltage_table.specs.VoltList.{IsSound};
ghost use Rattle.voltage_table.specs.ListFault.{first_fault};

use crate::list_pick::{greater, lesser};
use crate::{ListFault, ListPick};
use arrayvec::ArrayVec;
use std::marker::Model;

/// At most `N` values in µV, in any order and with repeats: selector 0 has the first. Contracts see
/// the values in order.
#[derive(Drop)]
pub struct VoltList<const N: usize> {
    values: ArrayVec<u32, N>,
}

impl<const N: usize> Model for VoltList<N> {
    ghost use Rattle.std.specs.Prelude.{List, ℕ};
    ghost use Rattle.voltage_table.specs.VoltList.{IsSound};

    ghost Value = { List ℕ };

    ghost view = { λ t. t.values.items };

    ghost invariant = { λ t. IsSound N t.values.items };
}

impl<const N: usize> VoltList<N> {
    /// A table of these values in µV, or what keeps them from being one.
    pub fn new(values: &[u32]) -> Result<VoltList<N>, ListFault>
        requires { N ≤ 65536 }
        ensures ok { IfOk result (λ list. list ≡ values.now) }
        ensures refused { result_err result ≡ first_fault N values.now }
    {
        if values.is_empty() {
            return Err(ListFault::Empty);
        }
        match ArrayVec::try_from(values) {
            Ok(values) => Ok(VoltList { values }),
            Err(_) => Err(ListFault::TooMany(values.len())),
        }
    }

    /// The value of a selector in µV, where the list is long enough.
    pub fn value(&self, sel: u16) -> Option<u32>
        ensures { result ≡ value_of self.now sel }
    {
        self.values.as_slice().get(usize::from(sel)).copied()
    }

    /// The least value not below `uv` µV, at its first selector.
    ///
    /// In the list 5, 3, 5, 3, the value 4 has selector 0, with 5.
    pub fn selector_high(&self, uv: u32) -> Option<ListPick>
        ensures { option_map pair_of result ≡ pick_high (values self.now) uv }
    {
        let mut best = None;
        // From the back, so that of equal values the first stands in the end.
        for sel in (0..self.values.len()).rev() {
            let here = self.values[sel];
            if uv <= here {
                let pick = ListPick {
                    sel: sel as u16,
                    uv: here,
                };
                best = Some(lesser(pick, best));
            }
        }
        best
    }

    /// The greatest value not above `uv` µV, at its first selector.
    ///
    /// In the list 5, 3, 5, 3, the value 4 has selector 1, with 3.
    pub fn selector_low(&self, uv: u32) -> Option<ListPick>
        ensures { option_map pair_of result ≡ pick_low (values self.now) uv }
    {
        let mut best = None;
        for sel in (0..self.values.len()).rev() {
            let here = self.values[sel];
            if here <= uv {
                let pick = ListPick {
                    sel: sel as u16,
                    uv: here,
                };
                best = Some(greater(pick, best));
            }
        }
        best
    }

    /// The number of selectors with a value.
    pub fn count(&self) -> u32
        ensures value { result ≡ length (values self.now) }
        ensures within { result ≤ 65536 }
    {
        self.values.len() as u32
    }

    pub(crate) fn know_values(&self)
        ensures sound { IsSound N self.now }
        ensures small { All (λ uv. uv < 2 ^ 32) self.now }
    {
        know_small(self.values.as_slice());
    }
}

fn know_small(values: &[u32])
    ensures { All (λ uv. uv < 2 ^ 32) values.now }
{
    let _values = values;
}
