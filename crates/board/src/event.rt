/// What a rail tells its listeners. Values are µV.
#[derive(Clone, Copy)]
pub enum Event {
    PreVoltageChange { old: u32, new: u32 },
    VoltageChange { uv: u32 },
    AbortVoltageChange { uv: u32 },
    Enable,
    PreDisable,
    Disable,
    AbortDisable,
}
