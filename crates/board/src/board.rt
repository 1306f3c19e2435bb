use crate::part::Part;
use crate::rail::Rail;
use crate::rail_id::RailId;
use board_graph::Graph;
use chip_regs::Field;
use item_list::Items;
use linear_range::Pick;

/// Rails on chips, and what ties them to each other. Rails, chips and groups are numbered from 0.
#[derive(Drop)]
pub struct Board {
    pub rails: Items<Rail>,
    /// By how much coupled rails may differ, in µV, by the number of their group.
    pub spread: Items<u32>,
    /// How many chips there are.
    pub chips: u8,
    /// The rails' supplies, groups and dropout links, as the rails themselves tell them.
    pub graph: Graph,
    /// The order in which the rails come up.
    pub order: Items<u16>,
}

impl Board {
    ghost use Rattle.std.specs.Prelude.{◌≡◌, ◌<◌, length, nat_eq, slice_get, Some, option_map, All, IfSome, MatchOption};
    ghost use Rattle.std.specs.List.{list_any};
    ghost use Rattle.linear_range.specs.Pick.{pair_of};
    ghost use Rattle.linear_range.specs.Values.{pick_high, pick_low};
    ghost use Rattle.board.specs.Fields.{field_at, choices_at, allowed_at, HasValueAt, IsLeastAbove, IsGreatestBelow};

    /// Whether the rail may stand at `uv` µV: at a value of its table within its bounds, or, where
    /// it isn't changeable, at the one value that it has.
    pub fn allowed(&self, r: RailId, uv: u32) -> bool
        requires rail { r.0 < length self.now.rails }
        ensures { result ≡ list_any (nat_eq uv) (allowed_at self.now r.0) }
    {
        self.rail(r).allows(uv)
    }

    /// The nearest allowed value not below `uv` µV, at its first selector; `None` exactly where
    /// every allowed value is below. Of a rail that can't change the selector is 0 and tells nothing.
    pub fn at_or_above(&self, r: RailId, uv: u32) -> Option<Pick>
        requires rail { r.0 < length self.now.rails }
        ensures pick { option_map pair_of result ≡ pick_high (choices_at self.now r.0) uv }
        ensures nearest { MatchOption result (All (λ value. value < uv) (allowed_at self.now r.0)) (λ pick. IsLeastAbove (allowed_at self.now r.0) uv pick.uv) }
        ensures value { IfSome result (λ pick. HasValueAt self.now r.0 pick.sel pick.uv) }
    {
        self.rail(r).at_or_above(uv)
    }

    /// The nearest allowed value not above `uv` µV, at its first selector; `None` exactly where
    /// every allowed value is above. Of a rail that can't change the selector is 0 and tells nothing.
    pub fn at_or_below(&self, r: RailId, uv: u32) -> Option<Pick>
        requires rail { r.0 < length self.now.rails }
        ensures pick { option_map pair_of result ≡ pick_low (choices_at self.now r.0) uv }
        ensures nearest { MatchOption result (All (λ value. uv < value) (allowed_at self.now r.0)) (λ pick. IsGreatestBelow (allowed_at self.now r.0) uv pick.uv) }
        ensures value { IfSome result (λ pick. HasValueAt self.now r.0 pick.sel pick.uv) }
    {
        self.rail(r).at_or_below(uv)
    }

    /// The field of a part of a rail; `None` exactly where its description has none.
    pub fn field(&self, r: RailId, part: Part) -> Option<Field>
        requires rail { r.0 < length self.now.rails }
        ensures { result ≡ field_at self.now r.0 part }
    {
        self.rail(r).field(part)
    }

    fn rail(&self, r: RailId) -> &Rail
        requires { r.0 < length self.now.rails }
        ensures { slice_get self.now.rails r.0 ≡ Some result.now }
    {
        &self.rails.as_slice()[usize::from(r.0)]
    }
}
