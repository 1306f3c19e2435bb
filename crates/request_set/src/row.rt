use board::Handle;

/// What a worker's handle asks of the rail, in µV.
#[derive(Clone, Copy)]
pub(crate) struct Row {
    pub(crate) worker: u16,
    pub(crate) handle: Handle,
    pub(crate) least: u32,
    pub(crate) greatest: u32,
}
