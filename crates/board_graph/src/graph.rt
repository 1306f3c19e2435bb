use item_list::Items;

/// What ties the rails of a board to each other. Rails are numbered from 0, and each of the three
/// lists has one entry a rail.
#[derive(Drop)]
pub struct Graph {
    /// The rail that supplies each rail.
    pub supply: Items<Option<u16>>,
    /// The group of each rail. Two rails with the same group number are coupled; a rail that isn't
    /// coupled has a number of its own.
    pub group: Items<u16>,
    /// Whether each rail ties its supply by a dropout: the supply, which can change, has to stay
    /// above the rail.
    pub link: Items<bool>,
}
