use board::{Desc, Name};
use chip_regs::Bits;
use item_list::Items;

/// A chip as its data sheet has it.
#[derive(Drop)]
pub struct ChipDesc {
    /// The rails in the chip's order.
    pub rails: Items<ChipRail>,
    /// The registers that aren't 0 after a reset, each with its content.
    pub resets: Items<(u8, Bits)>,
}

/// A rail of a chip.
#[derive(Drop)]
pub struct ChipRail {
    /// The name of its node in devicetree source.
    pub node: Name,
    /// The name of the pin that supplies it; the property is this name and `-supply`.
    pub supply: Name,
    pub desc: Desc,
}
