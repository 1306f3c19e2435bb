//! What follows from the definitions.
ghost use Rattle.std.specs.Prelude.{◌≡◌, ◌≢◌, ◌<◌, ◌↔◌, ℕ, List, [], Some, MatchOption, All, Contains, length, slice_index, slice_index_or};
ghost use Rattle.chip_regs.specs.declared.field.Field.{Field};
ghost use Rattle.chip_regs.specs.Field.{IsField, FitsField};
ghost use Rattle.chip_regs.specs.Registers.{with_field};
ghost use Rattle.board_graph.specs.declared.graph.Graph.{Graph};
ghost use Rattle.board_graph.specs.Graph.{count_of};
ghost use Rattle.board_graph.specs.Order.{IsOrder};
ghost use Rattle.board.specs.declared.board.Board.{Board};
ghost use Rattle.board.specs.Valid.{IsGraphOf};
ghost use Rattle.rail_law.specs.Ties.{Tie, KeepsAll};
ghost use Rattle.rail_law.specs.BoardTies.{standing_values, ties_of};
ghost use Rattle.rail_law.specs.Law.{KeepSpreads, KeepDropouts};
ghost use Rattle.rail_law.specs.Moves.{after_write, update_of_field};
ghost use Rattle.rail_law.specs.Way.{after_steps, way};
ghost use Rattle.rail_law.specs.Least.{lower, higher, least_vector, IsAdmissible, IsAtMost, IsLeast, AreFewer};

/// Where some values keep all ties there are least ones, and those are the answer; else there is none.
pub fn least_exists()
    ensures { (choices : List (List ℕ)) (ties : List Tie)
        → MatchOption (least_vector choices ties) ((vector : List ℕ) → ¬ IsAdmissible choices ties vector) (IsLeast choices ties) }
{}

/// Least values are the only ones, and they are the answer.
pub fn one_least()
    ensures only { (choices : List (List ℕ)) (ties : List Tie) (vector other : List ℕ)
        → IsLeast choices ties vector → IsLeast choices ties other → vector ≡ other }
    ensures answer { (choices : List (List ℕ)) (ties : List Tie) (vector : List ℕ)
        → IsLeast choices ties vector → least_vector choices ties ≡ Some vector }
{}

/// Of two lists that keep all ties, the lower values rail by rail do.
pub fn closed_under_lower()
    ensures { (choices : List (List ℕ)) (ties : List Tie) (vector other : List ℕ)
        → IsAdmissible choices ties vector → IsAdmissible choices ties other → IsAdmissible choices ties (lower vector other) }
{}

/// Of two lists that keep all ties, the higher values rail by rail do.
pub fn closed_under_higher()
    ensures { (choices : List (List ℕ)) (ties : List Tie) (vector other : List ℕ)
        → IsAdmissible choices ties vector → IsAdmissible choices ties other → IsAdmissible choices ties (higher vector other) }
{}

/// Fewer values to choose from give no lower least ones.
pub fn fewer_choices()
    ensures { (fewer choices : List (List ℕ)) (ties : List Tie) (vector other : List ℕ)
        → AreFewer fewer choices → IsLeast fewer ties vector → IsLeast choices ties other → IsAtMost other vector }
{}

/// Spreads and dropouts are kept exactly where the board's ties are: on a board whose graph is that of
/// its rails, and whose groups have spreads.
pub fn law_by_ties()
    ensures { (board : Board) (regs : List (List ℕ))
        → IsGraphOf board → All (λ rail. rail.group < length board.spread) board.rails
        → (KeepSpreads board regs × KeepDropouts board regs) ↔ KeepsAll (standing_values board regs) (ties_of board) }
{}

/// The way leads to the goal, where each rail that isn't there is to stand at one of its values.
pub fn way_arrives()
    ensures { (graph : Graph) (order : List ℕ) (choices : List (List ℕ)) (now goal : List ℕ)
        → IsOrder graph order
        → length choices ≡ count_of graph → length now ≡ count_of graph → length goal ≡ count_of graph
        → ((r : ℕ) → slice_index now r ≢ slice_index goal r → Contains (slice_index_or choices r []) (slice_index goal r))
        → after_steps now (way graph order choices now goal) ≡ goal }
{}

/// Each step of a way takes a rail to one of its values.
pub fn way_is_of_choices()
    ensures { (graph : Graph) (order : List ℕ) (choices : List (List ℕ)) (now goal : List ℕ)
        → All (λ step. Contains (slice_index_or choices step.0 []) step.1) (way graph order choices now goal) }
{}

/// The masked update of a write of a number into a field leaves the registers with that number in it.
pub fn update_is_put()
    ensures { (regs : List (List ℕ)) (field : Field) (bits : ℕ)
        → IsField field → FitsField field bits
        → after_write regs (update_of_field (Some field) bits) ≡ with_field regs field bits }
{}
