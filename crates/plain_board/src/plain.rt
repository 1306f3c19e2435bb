use board::{Event, RailId};
use chip_regs::Regs;
use item_list::Items;
use use_counts::HandleRow;

/// All that a board without threads has: its registers, the open handles rail by rail and on each
/// rail in the order of opening, and by rail its hold and its events.
#[derive(Drop)]
pub struct Plain {
    pub regs: Regs,
    pub handles: Items<(RailId, HandleRow)>,
    pub holds: Items<bool>,
    pub suspended: bool,
    pub events: Items<Items<Event>>,
}
