use board::Board;
use chip_regs::Bits;
use item_list::Items;

/// A board as its tree has it, before its registers are looked at.
#[derive(Drop)]
pub struct Drafted {
    /// The one value of a chip's rail without bounds isn't known yet, and stands as 0.
    pub board: Board,
    /// The registers that aren't 0 after a reset: the chip, the register, and its content.
    pub resets: Items<(u8, u8, Bits)>,
}
