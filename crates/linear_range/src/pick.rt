ghost use Rattle.std.specs.Prelude.{◌≡◌};
ghost use Rattle.std.specs.Option.{option_map};
ghost use Rattle.linear_range.specs.Pick.{pair_of, lesser_of, greater_of};

/// A selector of a table, with its value.
#[derive(Clone, Copy)]
pub struct Pick {
    pub sel: u16,
    /// In µV.
    pub uv: u32,
}

/// The pick with the lesser value, at equal values the one with the lesser selector.
pub(crate) fn lesser(a: Option<Pick>, b: Option<Pick>) -> Option<Pick>
    ensures { option_map pair_of result ≡ lesser_of (option_map pair_of a) (option_map pair_of b) }
{
    match (a, b) {
        (None, other) => other,
        (Some(one), None) => Some(one),
        (Some(one), Some(other)) => {
            let other_first = other.uv < one.uv || (other.uv == one.uv && other.sel < one.sel);
            Some(if other_first { other } else { one })
        }
    }
}

/// The pick with the greater value, at equal values the one with the lesser selector.
pub(crate) fn greater(a: Option<Pick>, b: Option<Pick>) -> Option<Pick>
    ensures { option_map pair_of result ≡ greater_of (option_map pair_of a) (option_map pair_of b) }
{
    match (a, b) {
        (None, other) => other,
        (Some(one), None) => Some(one),
        (Some(one), Some(other)) => {
            let other_first = one.uv < other.uv || (other.uv == one.uv && other.sel < one.sel);
            Some(if other_first { other } else { one })
        }
    }
}
