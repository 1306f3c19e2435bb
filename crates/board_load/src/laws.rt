//! What follows from the definitions.
ghost use Rattle.board_load.specs.Laws.{DraftsHaveValues, ResetsNameChips};

/// On the board of a tree each rail with bounds has a value within them, and all resets are of its chips.
pub fn drafts_have_values()
    ensures values { DraftsHaveValues }
    ensures resets { ResetsNameChips }
{}
