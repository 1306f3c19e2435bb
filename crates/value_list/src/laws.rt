ghost use Rattle.std.specs.Prelude.{ℕ, List};
ghost use Rattle.value_list.specs.Laws.{SelectorsRise, PicksHigh, PicksLow};

/// The laws of a list whose selectors rise: its picks are the least and the greatest. The call does
/// nothing; what it ensures is the law.
pub fn picks_are_extreme()
    ensures high { (ps : List (ℕ × ℕ)) → SelectorsRise ps → PicksHigh ps }
    ensures low { (ps : List (ℕ × ℕ)) → SelectorsRise ps → PicksLow ps }
{}
