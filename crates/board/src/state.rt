/// How a board is suspended, as Linux names it: in standby, with its memory kept, or with its
/// memory on the disk.
#[derive(Clone, Copy)]
pub enum State {
    Standby,
    Mem,
    Disk,
}
