use board::{Desc, Name};
use chip_regs::Bits;
use item_list::Items;

/// A rail as the tree of a board has it.
#[derive(Drop)]
pub struct RailNode {
    pub name: Name,
    /// The rail's own node.
    pub node: u32,
    /// The node of the chip that makes the rail; a fixed rail has none.
    pub chip_node: Option<u32>,
    /// The name of the pin that supplies it; the property is this name and `-supply`.
    pub supply: Name,
    pub desc: Desc,
}

/// The rails of a board in its order, and its chips.
#[derive(Drop)]
pub struct BoardNodes {
    pub rails: Items<RailNode>,
    /// How many chips there are; the fixed rails, where there are any, count as one.
    pub chips: u8,
    /// The registers that aren't 0 after a reset: the chip, the register, and its content.
    pub resets: Items<(u8, u8, Bits)>,
}
