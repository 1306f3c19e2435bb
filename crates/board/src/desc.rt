use crate::table::Table;
use chip_regs::Field;

/// How a chip makes a rail: its voltages, its register fields, its loads and its times.
#[derive(Drop)]
pub struct Desc {
    /// The voltages by selector, in µV.
    pub table: Table,
    /// Where the selector stands; none for a rail with one value.
    pub selector: Option<Field>,
    /// Where the on bit stands.
    pub enable: Field,
    /// Where the mode stands, in two bits: 0 fast, 1 normal, 2 idle, 3 standby. A rail without
    /// such a field has no modes.
    pub modes: Option<Field>,
    /// The greatest load of each mode, in µA, in the order fast, normal, idle, standby.
    pub greatest: [u32; 4],
    /// Where it stands whether the rail is on while the board is suspended.
    pub suspend_enable: Option<Field>,
    /// Where the selector of a suspended board stands.
    pub suspend_selector: Option<Field>,
    /// How far a changeable supply stays above the rail at the least, in µV.
    pub dropout: u32,
    /// How fast the voltage changes, in µV a µs; 0 where it isn't known.
    pub ramp: u32,
    /// How long the rail takes to come up once it is switched on, in µs.
    pub enable_time: u32,
}
