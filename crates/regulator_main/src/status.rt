use session::SessionFault;

/// How a run of the program ended.
#[derive(Clone, Copy, Debug)]
pub enum Status {
    Done,
    Memory,
    /// The words are no command.
    Words,
    ReadFault,
    /// `kept` bytes of the text went out.
    WriteFault { kept: u64 },
    SessionRefused(SessionFault),
    /// The bus refused an update of the load, to this register.
    LoadFault { chip: u8, reg: u8 },
}

ghost use Rattle.std.specs.Prelude.{◌≡◌};
ghost use Rattle.regulator_main.specs.Status.{code_of};

/// The exit status of the program.
pub fn code(status: &Status) -> u8
    ensures { result ≡ code_of status.now }
{
    match status {
        Status::Done => 0,
        Status::Memory => 1,
        Status::Words => 2,
        Status::ReadFault => 3,
        Status::WriteFault { .. } => 4,
        Status::SessionRefused(_) => 5,
        Status::LoadFault { .. } => 6,
    }
}
