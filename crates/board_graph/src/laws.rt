//! What follows from the definitions.
ghost use Rattle.std.specs.Prelude.{◌≡◌, ◌<◌, ◌↔◌, ℕ, List, true};
ghost use Rattle.board_graph.specs.declared.graph.Graph.{Graph};
ghost use Rattle.board_graph.specs.Graph.{count_of, IsAbove, IsGraph, IsOnBlockLoop, IsOnSupplyLoop};
ghost use Rattle.board_graph.specs.Loops.{is_above, is_on_block_loop, is_on_supply_loop};
ghost use Rattle.board_graph.specs.Order.{IsOrder};
ghost use Rattle.board_graph.specs.Sets.{closure, movers, HoldsGuards, HoldsMovers, IsLeastWith};

/// A graph has one order at most.
pub fn one_order()
    ensures { (graph : Graph) (order other : List ℕ)
        → IsOrder graph order → IsOrder graph other → order ≡ other }
{}

/// A graph has an order exactly where no rail is on a loop of blocks.
pub fn order_exists()
    ensures exists { (graph : Graph) → IsGraph graph → ((r : ℕ) → ¬ IsOnBlockLoop graph r)
        → (order : List ℕ) × IsOrder graph order }
    ensures no_loop { (graph : Graph) (order : List ℕ)
        → IsOrder graph order → (r : ℕ) → ¬ IsOnBlockLoop graph r }
{}

/// What a rail rests on is the least set with it in which each rail's block and supply are.
pub fn closure_is_least()
    ensures { (graph : Graph) (r : ℕ)
        → IsGraph graph → r < count_of graph → IsLeastWith (HoldsGuards graph) r (closure graph r) }
{}

/// What moves with a rail is the least set with it in which each rail's block is, and the supply that
/// it is linked to.
pub fn movers_are_least()
    ensures { (graph : Graph) (r : ℕ)
        → IsGraph graph → r < count_of graph → IsLeastWith (HoldsMovers graph) r (movers graph r) }
{}

/// A rail is above another exactly where it is among the supplies above that.
pub fn above_is()
    ensures { (graph : Graph) (upper lower : ℕ) → IsGraph graph
        → IsAbove graph upper lower ↔ is_above graph upper lower ≡ true }
{}

/// A rail is on a loop of supplies exactly where it is among the supplies above it.
pub fn supply_loop_is()
    ensures { (graph : Graph) (r : ℕ) → IsGraph graph
        → IsOnSupplyLoop graph r ↔ is_on_supply_loop graph r ≡ true }
{}

/// A rail is on a loop of blocks exactly where a rail of its block has a supply that rests on it.
pub fn block_loop_is()
    ensures { (graph : Graph) (r : ℕ) → IsGraph graph
        → IsOnBlockLoop graph r ↔ is_on_block_loop graph r ≡ true }
{}
