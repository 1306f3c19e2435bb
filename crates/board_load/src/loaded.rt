use board::{Board, Write};
use item_list::Items;
use plain_board::Plain;

/// A board that is loaded: its rails, the register writes that bring them to where they start, in
/// order, and the plain board once these are made.
#[derive(Drop)]
pub struct Loaded {
    pub board: Board,
    pub writes: Items<Write>,
    pub plain: Plain,
}
