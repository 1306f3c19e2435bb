ghost use Rattle.std.specs.Prelude.{◌≡◌};
ghost use Rattle.std.specs.Process.{exit_status};
ghost use Rattle.regulator_main.specs.Status.{code_of};

use crate::advice::advice;
use crate::status::{Status, code};
use session::SessionFault;
use std::alloc::Global;
use std::io;
use std::process::ExitCode;

/// The exit status of a run. What went wrong is told in a line on the standard error, made from the
/// status alone; where that can't be written, the exit status is the same.
pub fn exit_code(rt: &(impl Eprint + Alloc<A = Global>), status: Status) -> ExitCode
    ensures { exit_status result ≡ code_of status }
{
    let _ = tell(rt, &status);
    ExitCode::from(code(&status))
}

fn tell(rt: &(impl Eprint + Alloc<A = Global>), status: &Status) -> io::Result<()> {
    match status {
        Status::Done => Ok(()),
        Status::Memory => eprintln!(rt; "no memory was left, and nothing was written"),
        Status::Words => eprintln!(rt; "usage: regulator COMMAND"),
        Status::ReadFault => { eprintln!(rt; "the session can't be read, and nothing was written") }
        Status::WriteFault { kept } => {
            eprintln!(rt; "the answers can't be written; {kept} bytes of them went out")
        }
        Status::SessionRefused(fault) => tell_refusal(rt, fault),
        Status::LoadFault { chip, reg } => {
            eprintln!(rt;
                "the bus refused the update of register 0x{reg:02x} of chip {chip} while the board was loaded"
            )
        }
    }
}

/// Tells the words of a refusal, and what to change.
fn tell_refusal(rt: &(impl Eprint + Alloc<A = Global>), fault: &SessionFault) -> io::Result<()> {
    let advice = advice(fault);
    match fault.text(rt.alloc()) {
        Ok(text) => {
            let words = text.trim_end();
            eprintln!(rt; "{words}: {advice}")
        }
        Err(_) => eprintln!(rt; "{advice}"),
    }
}
