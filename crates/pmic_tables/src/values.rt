use crate::tables::{listed, one_range, range, two_ranges};
use board::Table;

/// The voltages that rails of the known chips can have.
#[derive(Clone, Copy)]
pub(crate) enum Values {
    Pm4Core,
    Pm4Io,
    Pm4Usb,
    Pm8Core,
    Pm8Memory,
    Pm8Linear,
    Pm12Core,
    Pm12Linear,
    Pm12Various,
}

impl Values {
    ghost use Rattle.std.specs.Prelude.{◌≡◌};
    ghost use Rattle.pmic_tables.specs.Rows.{table_of};

    /// The voltages by selector.
    pub(crate) fn table(self) -> Table
        ensures { result ≡ table_of self }
    {
        match self {
            Values::Pm4Core => one_range(range(600000, 6250, 0, 127)),
            Values::Pm4Io => {
                two_ranges(range(800000, 50000, 0, 15), range(1600000, 100000, 16, 31))
            }
            Values::Pm4Usb => listed(&[
                1200000, 1500000, 1800000, 2500000, 2800000, 3000000, 3200000, 3300000,
            ]),
            Values::Pm8Core => one_range(range(500000, 10000, 0, 127)),
            Values::Pm8Memory => one_range(range(800000, 25000, 0, 63)),
            Values::Pm8Linear => one_range(range(900000, 100000, 0, 31)),
            Values::Pm12Core => {
                two_ranges(range(600000, 12500, 0, 63), range(1400000, 25000, 64, 127))
            }
            Values::Pm12Linear => one_range(range(800000, 50000, 0, 63)),
            Values::Pm12Various => listed(&[
                1000000, 1100000, 1200000, 1500000, 1800000, 1850000, 2000000, 2500000, 2600000,
                2700000, 2800000, 2900000, 3000000, 3100000, 3200000, 3300000,
            ]),
        }
    }
}
