use crate::sleep::Sleep;
use load_modes::{Mode, Modes};
use ramp_delay::Times;

/// What the board's author asks of a rail, after Linux's binding
/// `Documentation/devicetree/bindings/regulator/regulator.yaml`. A number that isn't given is 0.
#[derive(Clone, Copy)]
pub struct Constraints {
    /// The least and the greatest value, in µV (`regulator-min-microvolt`,
    /// `regulator-max-microvolt`).
    pub bounds: Option<(u32, u32)>,
    /// The rail is never switched off (`regulator-always-on`).
    pub always_on: bool,
    /// The rail is on from the start, until the board is up (`regulator-boot-on`).
    pub boot_on: bool,
    /// Consumers tell their loads, which choose the mode (`regulator-allow-set-load`).
    pub allow_load: bool,
    /// The load that no consumer tells, in µA (`regulator-system-load`).
    pub system_load: u32,
    /// How long changes of the voltage take.
    pub times: Times,
    /// How long the rail takes to come up, in µs, in place of the description's time; 0 where the
    /// description's counts (`regulator-enable-ramp-delay`).
    pub enable_ramp: u32,
    /// The modes that the rail may be in (`regulator-allowed-modes`).
    pub allowed: Modes,
    /// The mode at the start (`regulator-initial-mode`).
    pub initial: Option<Mode>,
    /// The greatest single step of the voltage, in µV; 0 where any is good
    /// (`regulator-max-step-microvolt`).
    pub max_step: u32,
    /// What a suspended board asks, in the order standby, mem, disk (`regulator-state-standby`,
    /// `regulator-state-mem`, `regulator-state-disk`).
    pub sleeps: [Option<Sleep>; 3],
}
