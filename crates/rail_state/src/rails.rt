ghost use Rattle.std.specs.Prelude.{◌≡◌, ℕ, ◌==◌, ◌&&◌, Bool, List, Contains, Some, IsTrue, ◌↔◌, if◌then◌else◌};
ghost use Rattle.std.specs.Borrow.{sem, follows};
ghost use Rattle.chip_regs.specs.declared.field.Field.{Field};
ghost use Rattle.chip_regs.specs.Field.{FitsField};
ghost use Rattle.board.specs.declared.board.Board.{Board as TheBoard};
ghost use Rattle.board.specs.declared.part.Part.{Part as ThePart};
ghost use Rattle.board.specs.Fields.{field_at};
ghost use Rattle.use_counts.specs.Book.{Book};
ghost use Rattle.rail_state.specs.Sight.{IsGuarded, IsOwned, KeepsLaw};
ghost use Rattle.rail_state.specs.contracts.rail_state.RailState.{the_row};

use crate::rail_state::RailState;
use board::{Part, RailId};
use chip_regs::Bits;

/// Some rails of a board, in the hands of one worker. A rail's field may be read under any lock that
/// guards the rail (its own, its supply's, and those of its group), and is written under all of them;
/// a rail's state is read and changed under its own.
pub trait Rails {
    /// The board whose rails these are.
    ghost board: { Self → TheBoard };

    /// The rails that are held.
    ghost rails: { Self → List ℕ };

    /// The number that is seen in the field of a part of a rail.
    ghost bits: { Self → ℕ → ThePart → ℕ };

    /// The book of a rail that is held.
    ghost states: { Self → ℕ → Book };

    /// The same rails with another book of one of them.
    ghost with_state: { Self → ℕ → Book → Self };

    /// What stands behind them, which no call of theirs changes.
    ghost Base: { Type 0 };

    ghost base: { Self → Base };

    /// They are rails of what they were taken from.
    ghost fits: { Self → Type 0 };

    /// Whether the rail is held.
    fn has(&self, r: RailId) -> bool
        requires fits { fits self.now }
        ensures { IsTrue result ↔ Contains (rails self.now) r.0 };

    /// The number in the field of a part of a rail.
    fn see(&mut self, r: RailId, part: Part) -> Bits
        requires fits { fits self.old }
        requires guarded { IsGuarded (board self.old) (rails self.old) r.0 }
        requires there { (field : Field) × (field_at (board self.old) r.0 part ≡ Some field) }
        ensures value { result ≡ bits self.old r.0 part }
        ensures fits { fits self.new }
        ensures board { board self.new ≡ board self.old }
        ensures rails { rails self.new ≡ rails self.old }
        ensures bits { (i : ℕ) (other : ThePart) → bits self.new i other ≡ bits self.old i other }
        ensures states { (i : ℕ) → states self.new i ≡ states self.old i }
        ensures base { base self.new ≡ base self.old };

    /// Puts a number into the field of a part of a rail.
    fn write(&mut self, r: RailId, part: Part, number: Bits)
        requires fits { fits self.old }
        requires owned { IsOwned (board self.old) (rails self.old) r.0 }
        requires room { (field : Field) × (field_at (board self.old) r.0 part ≡ Some field) × FitsField field number × KeepsLaw (board self.old) (rails self.old) (bits self.old) field number }
        ensures fits { fits self.new }
        ensures written { bits self.new r.0 part ≡ number }
        ensures others { (i : ℕ) (other : ThePart) → (i ≡ r.0 → other ≡ part → ⊥) → bits self.new i other ≡ bits self.old i other }
        ensures board { board self.new ≡ board self.old }
        ensures rails { rails self.new ≡ rails self.old }
        ensures states { (i : ℕ) → states self.new i ≡ states self.old i }
        ensures base { base self.new ≡ base self.old };

    /// The state of a rail.
    fn state(&self, r: RailId) -> &RailState
        requires fits { fits self.now }
        requires held { Contains (rails self.now) r.0 }
        ensures { result.now ≡ states self.now r.0 };

    /// The state of a rail, to be changed.
    fn state_mut(&mut self, r: RailId) -> &mut RailState
        requires fits { fits self.old }
        requires held { Contains (rails self.old) r.0 }
        ensures* writes_back { sem 𝓛 (follows Self.row the_row self.entry.ghost_name result.ghost_name (with_state self.old r.0)) }
        ensures value { result.now ≡ states self.old r.0 };

    /// With another book of a rail the rails fit, and its book is the new one; all else stays.
    ghost with_state_fits: { (s : Self) (r : ℕ) (book : Book) → fits s → Contains (rails s) r → fits (with_state s r book) };

    ghost with_state_states: { (s : Self) (r i : ℕ) (book : Book) → fits s → Contains (rails s) r → states (with_state s r book) i ≡ (if i == r then book else states s i) };

    ghost with_state_board: { (s : Self) (r : ℕ) (book : Book) → board (with_state s r book) ≡ board s };

    ghost with_state_rails: { (s : Self) (r : ℕ) (book : Book) → rails (with_state s r book) ≡ rails s };

    ghost with_state_bits: { (s : Self) (r i : ℕ) (part : ThePart) (book : Book) → bits (with_state s r book) i part ≡ bits s i part };

    ghost with_state_base: { (s : Self) (r : ℕ) (book : Book) → base (with_state s r book) ≡ base s };
}
