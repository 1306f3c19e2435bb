//! What follows of the calls on handles from what the plain board answers.
ghost use Rattle.std.specs.Prelude.{◌≡◌, ◌≢◌, ℕ, Contains, Option};
ghost use Rattle.board_graph.specs.Sets.{rails_of};
ghost use Rattle.board.specs.declared.board.Board.{Board};
ghost use Rattle.board.specs.Valid.{IsValid};
ghost use Rattle.rows.specs.declared.call.Call.{Call};
ghost use Rattle.rows.specs.Row.{HasRails, NamesRail};
ghost use Rattle.plain_board.specs.declared.plain.Plain.{Plain};
ghost use Rattle.plain_board.specs.Answer.{answer};
ghost use Rattle.plain_board.specs.Handles.{count_own};
ghost use Rattle.plain_board.specs.Inv.{Inv};
ghost use Rattle.plain_board.specs.Seen.{needs};
ghost use Rattle.plain_board.specs.Untied.{CountsNoLoads, HoldFields, IsHandleCall, IsUntied};
ghost use Rattle.rail_ops.specs.Foreign.{foreign};

/// A worker's call on a handle leaves each other worker as many handles as it had.
pub fn calls_leave_other_handles()
    ensures { (board : Board) (plain : Plain) (worker other : ℕ) (call : Call) (stop : Option ℕ)
        → Inv board plain → IsHandleCall call → other ≢ worker
        → count_own (answer board plain worker call stop).1.handles other ≡ count_own plain.handles other }
{}

/// The rails that the answer to a call on a handle names are rails of the board.
pub fn answers_name_rails()
    ensures { (board : Board) (plain : Plain) (worker : ℕ) (call : Call) (stop : Option ℕ)
        → IsHandleCall call → HasRails board (answer board plain worker call stop).0 }
{}

/// A call on a handle changes nothing that is in no field of the board.
pub fn calls_leave_what_is_foreign()
    ensures { (board : Board) (plain : Plain) (worker : ℕ) (call : Call) (stop : Option ℕ)
        → IsValid board → IsUntied board → CountsNoLoads board → HoldFields board plain.regs → Inv board plain → IsHandleCall call
        → foreign board (answer board plain worker call stop).1.regs ≡ foreign board plain.regs }
{}

/// The rails that a call on a handle needs are rails of the board.
pub fn calls_need_rails_of_the_board()
    ensures { (board : Board) (plain : Plain) (worker i : ℕ) (call : Call)
        → IsValid board → Inv board plain → NamesRail board call → Contains (needs board plain worker call) i → Contains (rails_of board.graph) i }
{}
