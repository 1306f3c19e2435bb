/// How a rail makes its voltage.
#[derive(Clone, Copy)]
pub(crate) enum Kind {
    /// A switching regulator, which has modes; its ramp in µV/µs.
    Buck(u32),
    /// A linear regulator; its dropout in µV.
    Ldo(u32),
}

impl Kind {
    ghost use Rattle.std.specs.Prelude.{◌≡◌};
    ghost use Rattle.pmic_tables.specs.Rules.{greatest_of, dropout_of, ramp_of, enable_time_of};

    /// The greatest load of each mode in µA, and 0 for a rail without modes.
    pub(crate) fn greatest(self) -> [u32; 4]
        ensures { result ≡ greatest_of self }
    {
        match self {
            Kind::Buck(_) => [3000000, 1000000, 50000, 5000],
            Kind::Ldo(_) => [0; 4],
        }
    }

    /// In µV; 0 for a switching regulator.
    pub(crate) fn dropout(self) -> u32
        ensures { result ≡ dropout_of self }
    {
        match self {
            Kind::Buck(_) => 0,
            Kind::Ldo(dropout) => dropout,
        }
    }

    /// In µV/µs; 0 for a linear regulator.
    pub(crate) fn ramp(self) -> u32
        ensures { result ≡ ramp_of self }
    {
        match self {
            Kind::Buck(ramp) => ramp,
            Kind::Ldo(_) => 0,
        }
    }

    /// In µs.
    pub(crate) fn enable_time(self) -> u32
        ensures { result ≡ enable_time_of self }
    {
        match self {
            Kind::Buck(_) => 100,
            Kind::Ldo(_) => 50,
        }
    }
}
