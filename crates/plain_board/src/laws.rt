//! What follows from the definitions: for the calls that sessions make today, on boards on which no
//! rail's value binds another's; for the calls on handles, where loads choose no rail's mode either;
//! and for all calls, on all boards.
ghost use Rattle.std.specs.Prelude.{◌≡◌, ◌≢◌, ◌<◌, ℕ, AllPairs, List, [], Option, None, Some, length, map, reverse, take};
ghost use Rattle.arrayvec.specs.ArrayString.{ArrayString};
ghost use Rattle.board.specs.declared.board.Board.{Board};
ghost use Rattle.board.specs.Valid.{IsValid};
ghost use Rattle.rail_law.specs.Law.{Law};
ghost use Rattle.rows.specs.declared.answer.Answer.{Answer};
ghost use Rattle.rows.specs.declared.call.Call.{Call};
ghost use Rattle.rows.specs.declared.call.Call.TheVariants.{Disable, Enable, ReleaseBoot};
ghost use Rattle.rows.specs.Row.{NamesRail};
ghost use Rattle.plain_board.specs.declared.plain.Plain.{Plain};
ghost use Rattle.plain_board.specs.Answer.{answer, plan};
ghost use Rattle.plain_board.specs.Handles.{Entry, open_of};
ghost use Rattle.plain_board.specs.History.{stop_of, IsWithinPlan};
ghost use Rattle.plain_board.specs.Inv.{Inv};
ghost use Rattle.plain_board.specs.Law.{Throughout};
ghost use Rattle.plain_board.specs.Plan.{always_holds, chain, chain_off, changed, one_less, sweep_off, switch};
ghost use Rattle.plain_board.specs.Refusals.{refusal};
ghost use Rattle.plain_board.specs.Switched.{AreSwitched, off_rails};
ghost use Rattle.plain_board.specs.Untied.{CountsNoLoads, HoldFields, IsBuiltCall, IsHandleCall, IsUntied};

/// A call keeps what holds of a plain board, whether it is done, refused, or stopped by the bus; and
/// the registers still hold the board's fields.
pub fn calls_keep_inv()
    ensures inv { (board : Board) (plain : Plain) (worker : ℕ) (call : Call) (stop : Option ℕ)
        → IsValid board → IsUntied board → HoldFields board plain.regs → Inv board plain
        → NamesRail board call → IsBuiltCall call → IsWithinPlan stop (plan board plain worker call)
        → Inv board (answer board plain worker call stop).1 }
    ensures fields { (board : Board) (plain : Plain) (worker : ℕ) (call : Call) (stop : Option ℕ)
        → IsValid board → IsUntied board → HoldFields board plain.regs → Inv board plain
        → IsBuiltCall call → IsWithinPlan stop (plan board plain worker call)
        → HoldFields board (answer board plain worker call stop).1.regs }
{}

/// The law holds before a call, and after each of the moves that it makes.
pub fn law_after_each_move()
    ensures { (board : Board) (plain : Plain) (worker : ℕ) (call : Call)
        → IsValid board → IsUntied board → HoldFields board plain.regs → Inv board plain → IsBuiltCall call
        → Throughout (Law board) board plain.regs (plan board plain worker call) }
{}

/// Where loads choose no mode, each call on a handle keeps what holds of a plain board, whether it is
/// done, refused, or stopped by the bus, and so does the end of the holds of the start; and the
/// registers still hold the board's fields.
pub fn handle_calls_keep_inv()
    ensures inv { (board : Board) (plain : Plain) (worker : ℕ) (call : Call) (stop : Option ℕ)
        → IsValid board → IsUntied board → CountsNoLoads board → HoldFields board plain.regs → Inv board plain
        → NamesRail board call → IsHandleCall call → IsWithinPlan stop (plan board plain worker call)
        → Inv board (answer board plain worker call stop).1 }
    ensures fields { (board : Board) (plain : Plain) (worker : ℕ) (call : Call) (stop : Option ℕ)
        → IsValid board → IsUntied board → CountsNoLoads board → HoldFields board plain.regs → Inv board plain
        → IsHandleCall call → IsWithinPlan stop (plan board plain worker call)
        → HoldFields board (answer board plain worker call stop).1.regs }
{}

/// Where loads choose no mode, the law holds before a call on a handle and after each of the moves that
/// it makes, and so at the end of the holds of the start.
pub fn law_after_each_handle_move()
    ensures { (board : Board) (plain : Plain) (worker : ℕ) (call : Call)
        → IsValid board → IsUntied board → CountsNoLoads board → HoldFields board plain.regs → Inv board plain → IsHandleCall call
        → Throughout (Law board) board plain.regs (plan board plain worker call) }
{}

/// Where loads choose no mode, an enable switches on the rails of its chain that are off, from above; a
/// disable switches off those of its chain that are idle once the enable is given up, from below; and
/// the end of the holds of the start those of the board that are idle then, each before its supply.
/// After the first so many of these moves the rails of the moves are switched, and the others are as
/// before. A rail stands in a chain once.
pub fn moves_of_handle_calls()
    ensures enable { (board : Board) (plain : Plain) (worker : ℕ) (handle : ArrayString) (entry : Entry)
        → CountsNoLoads board → open_of plain.handles worker handle.bytes ≡ Some entry
        → refusal board plain worker (Enable handle) ≡ None
        → plan board plain worker (Enable handle) ≡ map (switch 1) (off_rails board plain.regs (reverse (chain board entry.0.0))) }
    ensures disable { (board : Board) (plain : Plain) (worker : ℕ) (handle : ArrayString) (entry : Entry)
        → CountsNoLoads board → open_of plain.handles worker handle.bytes ≡ Some entry
        → refusal board plain worker (Disable handle) ≡ None
        → plan board plain worker (Disable handle)
        ≡ chain_off board (record plain { handles = changed plain worker handle.bytes one_less }) (chain board entry.0.0) }
    ensures release { (board : Board) (plain : Plain) (worker : ℕ) → refusal board plain worker ReleaseBoot ≡ None
        → plan board plain worker ReleaseBoot
        ≡ sweep_off board (record plain { holds = always_holds board plain.holds }) (reverse board.order) }
    ensures enabled { (board : Board) (plain : Plain) (worker : ℕ) (handle : ArrayString) (made : ℕ)
        → IsValid board → CountsNoLoads board → length plain.regs ≡ board.chips → HoldFields board plain.regs
        → AreSwitched board 1 plain.regs (take made (plan board plain worker (Enable handle))) }
    ensures disabled { (board : Board) (plain : Plain) (worker : ℕ) (handle : ArrayString) (made : ℕ)
        → IsValid board → CountsNoLoads board → length plain.regs ≡ board.chips → HoldFields board plain.regs
        → AreSwitched board 0 plain.regs (take made (plan board plain worker (Disable handle))) }
    ensures released { (board : Board) (plain : Plain) (worker : ℕ) (made : ℕ)
        → IsValid board → length plain.regs ≡ board.chips → HoldFields board plain.regs
        → AreSwitched board 0 plain.regs (take made (plan board plain worker ReleaseBoot)) }
    ensures once { (board : Board) (r : ℕ)
        → IsValid board → r < length board.rails → AllPairs (λ i j. i ≢ j) (chain board r) }
{}

/// A refused call makes no moves, is answered why, and changes nothing.
pub fn refused_calls_make_no_moves()
    ensures moves { (board : Board) (plain : Plain) (worker : ℕ) (call : Call) (said : Answer)
        → refusal board plain worker call ≡ Some said → plan board plain worker call ≡ [] }
    ensures answered { (board : Board) (plain : Plain) (worker : ℕ) (call : Call) (said : Answer) (stop : Option ℕ)
        → refusal board plain worker call ≡ Some said → answer board plain worker call stop ≡ (said, plain) }
{}

/// An answer tells after how many moves the bus stopped its call, and where the bus stopped none, it
/// tells no stop.
pub fn answers_tell_stops()
    ensures { (board : Board) (plain : Plain) (worker : ℕ) (call : Call) (stop : Option ℕ)
        → IsWithinPlan stop (plan board plain worker call) → stop_of (answer board plain worker call stop).0 ≡ stop }
{}
