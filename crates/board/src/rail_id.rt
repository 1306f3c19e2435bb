/// The number of a rail: its place among the rails of its board, from 0.
#[derive(Clone, Copy, PartialEq, Eq)]
pub struct RailId(pub u16);
