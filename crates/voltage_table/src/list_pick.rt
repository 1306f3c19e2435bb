ghost use Rattle.std.specs.Prelude.{◌≡◌};
ghost use Rattle.std.specs.Option.{option_map};
ghost use Rattle.voltage_table.specs.Values.{lesser_pair, greater_pair};
ghost use Rattle.voltage_table.specs.ListPick.{pair_of};

/// A selector of a list, with its value.
#[derive(Clone, Copy)]
pub struct ListPick {
    pub sel: u16,
    /// In µV.
    pub uv: u32,
}

/// The pick, unless that of later selectors has a lesser value.
pub(crate) fn lesser(pick: ListPick, later: Option<ListPick>) -> ListPick
    ensures { pair_of result ≡ lesser_pair (pair_of pick) (option_map pair_of later) }
{
    match later {
        Some(other) if other.uv < pick.uv => other,
        _ => pick,
    }
}

/// The pick, unless that of later selectors has a greater value.
pub(crate) fn greater(pick: ListPick, later: Option<ListPick>) -> ListPick
    ensures { pair_of result ≡ greater_pair (pair_of pick) (option_map pair_of later) }
{
    match later {
        Some(other) if pick.uv < other.uv => other,
        _ => pick,
    }
}
