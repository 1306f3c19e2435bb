ghost use Rattle.std.specs.Prelude.{◌≡◌};
ghost use Rattle.constraints.specs.Prop.{name_of};

/// The properties of a rail's node that have a form, in the order in which the forms are looked at. Their
/// names are those of the binding `Documentation/devicetree/bindings/regulator/regulator.yaml` of Linux.
#[derive(Clone, Copy, Debug, PartialEq, Eq)]
pub enum Prop {
    /// `regulator-name`: strings, of which the first counts.
    Name,
    /// `regulator-min-microvolt`: one number, in µV.
    MinMicrovolt,
    /// `regulator-max-microvolt`: one number, in µV.
    MaxMicrovolt,
    /// `regulator-system-load`: one number, in µA.
    SystemLoad,
    /// `regulator-ramp-delay`: one number, in µV a µs.
    RampDelay,
    /// `regulator-enable-ramp-delay`: one number, in µs.
    EnableRampDelay,
    /// `regulator-settling-time-us`: one number.
    SettlingTime,
    /// `regulator-settling-time-up-us`: one number.
    SettlingTimeUp,
    /// `regulator-settling-time-down-us`: one number.
    SettlingTimeDown,
    /// `regulator-max-step-microvolt`: one number, in µV.
    MaxStep,
    /// `regulator-allowed-modes`: numbers.
    AllowedModes,
    /// `regulator-initial-mode`: one number.
    InitialMode,
    /// `regulator-coupled-with`: cells, each a reference or the phandle of a node.
    CoupledWith,
    /// `regulator-coupled-max-spread`: one number, in µV, or one for each coupled rail, all equal.
    MaxSpread,
    /// `regulator-suspend-microvolt` of the nodes `regulator-state-standby`, `-mem` and `-disk`: one
    /// number, in µV.
    SuspendMicrovolt,
    /// The supply, `NAME-supply`: one cell, a reference or the phandle of a node.
    Supply,
}

impl Prop {
    /// The name in a devicetree; of a supply what stands behind its own word.
    pub fn name(self) -> &'static [u8]
        ensures { result.now ≡ name_of self }
    {
        match self {
            Prop::Name => b"regulator-name",
            Prop::MinMicrovolt => b"regulator-min-microvolt",
            Prop::MaxMicrovolt => b"regulator-max-microvolt",
            Prop::SystemLoad => b"regulator-system-load",
            Prop::RampDelay => b"regulator-ramp-delay",
            Prop::EnableRampDelay => b"regulator-enable-ramp-delay",
            Prop::SettlingTime => b"regulator-settling-time-us",
            Prop::SettlingTimeUp => b"regulator-settling-time-up-us",
            Prop::SettlingTimeDown => b"regulator-settling-time-down-us",
            Prop::MaxStep => b"regulator-max-step-microvolt",
            Prop::AllowedModes => b"regulator-allowed-modes",
            Prop::InitialMode => b"regulator-initial-mode",
            Prop::CoupledWith => b"regulator-coupled-with",
            Prop::MaxSpread => b"regulator-coupled-max-spread",
            Prop::SuspendMicrovolt => b"regulator-suspend-microvolt",
            Prop::Supply => b"-supply",
        }
    }
}
