use board::Handle;

/// One open handle of a worker: what it holds, asks and draws. A request is in µV, a load in µA.
#[derive(Clone, Copy)]
pub struct HandleRow {
    pub worker: u16,
    pub handle: Handle,
    pub enables: u32,
    pub request: Option<(u32, u32)>,
    pub load: u32,
    pub cursor: Option<u32>,
    pub exclusive: bool,
}
