ghost use Rattle.std.specs.Prelude.{◌≡◌, IfErr, OnOk};
ghost use Rattle.reg_outside.specs.Bus.{told_by};
ghost use Rattle.board_load.specs.BringUp.{TookAll, StoppedAt};

use crate::loaded::Loaded;
use reg_outside::Wire;

/// The register whose update a wire refused.
#[derive(Clone, Copy, Debug)]
pub struct LoadWire {
    pub chip: u8,
    pub reg: u8,
}

/// Makes the writes of a loaded board on a wire, in order, up to the first that it refuses. Takes no memory.
pub fn bring_up<W: Wire>(loaded: &Loaded, wire: &mut W) -> Result<(), LoadWire>
    ensures done { OnOk result (TookAll (told_by W.accepted W.plan W.faults wire.old) (told_by W.accepted W.plan W.faults wire.new) loaded.now.writes) }
    ensures stopped { IfErr result (λ stop. StoppedAt (told_by W.accepted W.plan W.faults wire.old) (told_by W.accepted W.plan W.faults wire.new) loaded.now.writes stop.chip stop.reg) }
{
    for write in loaded.writes.as_slice() {
        let Ok(()) = wire.update(write.chip, write.reg, write.mask, write.bits) else {
            return Err(LoadWire {
                chip: write.chip,
                reg: write.reg,
            });
        };
    }
    Ok(())
}
