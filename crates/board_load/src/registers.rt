ghost use Rattle.std.specs.Prelude.{◌≡◌, IfOk, length};
ghost use Rattle.board_load.specs.Registers.{with_bytes, reset_regs, NameChips};

use board_draft::Drafted;
use chip_regs::{Address, Bits, Regs};
use std::alloc::{AllocError, Global};

/// What the registers of a board's chips hold after a reset.
pub fn reset_regs(alloc: Global, draft: &Drafted) -> Result<Regs, AllocError>
    requires { NameChips draft.now.board.chips draft.now.resets }
    ensures { IfOk result (λ regs. regs ≡ reset_regs draft.now) }
{
    let mut regs = Regs::new(alloc, draft.board.chips)?;
    set_bytes(&mut regs, draft.resets.as_slice());
    Ok(regs)
}

/// Gives registers new contents, one after another: each a chip, a register and its content.
pub fn set_bytes(regs: &mut Regs, news: &[(u8, Address, Bits)])
    requires { NameChips (length regs.old) news.now }
    ensures registers { regs.new ≡ with_bytes regs.old news.now }
    ensures chips { length regs.new ≡ length regs.old }
{
    for (chip, reg, byte) in news {
        regs.set_byte(*chip, *reg, *byte);
    }
}
