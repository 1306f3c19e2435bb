use board_load::Loaded;
use item_list::Items;
use rows::Call;

/// What a text of a session stands for.
#[derive(Drop)]
pub struct Session {
    pub loaded: Loaded,
    /// Workers, each with the number of an update of its that is refused, from 1; worker 0 is the load.
    pub refusals: Items<(u16, u32)>,
    /// The calls of each worker.
    pub scripts: Items<Items<Call>>,
}
