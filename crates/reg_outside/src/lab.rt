ghost use Rattle.std.specs.Prelude.{◌≡◌, ◌≢◌, ℕ, List, Option, option_and_then};
ghost use Rattle.reg_outside.specs.Count.{raised};
ghost use Rattle.reg_outside.specs.Told.{StartsEmpty};

use crate::wire::Wire;

/// What hands out wires by number, and takes them back: 0 is the wire of the load, and each worker
/// has the wire of its number.
pub trait Lab {
    type W: Wire + Send;

    /// The faults of the wires that came back under a number; each stands still at the greatest `u64`.
    ghost faults: { Self → ℕ → ℕ };

    /// The updates accepted by the wire that came back last under a number, where the lab tells them.
    ghost list: { Self → ℕ → Option (List (ℕ × ℕ × ℕ × ℕ)) };

    /// The wire that a number gets next accepts so many updates, where the lab can tell that.
    ghost gives_room: { Self → ℕ → ℕ → Type 0 } = { λ _ _ _. ⊥ };

    /// A wire that has seen no update, for this number.
    fn wire(&mut self, worker: u16) -> Self::W
        ensures no_fault { Self.W.faults result ≡ 0 }
        ensures empty { StartsEmpty (list self.old worker) (Self.W.accepted result) }
        ensures counts_stay { (n : ℕ) → faults self.new n ≡ faults self.old n }
        ensures lists_stay { (n : ℕ) → list self.new n ≡ list self.old n }
        ensures room { (n : ℕ) → gives_room self.old worker n → Self.W.accepts_next result n }
        ensures other_rooms_stay { (other n : ℕ) → other ≢ worker → gives_room self.old other n → gives_room self.new other n };

    /// Takes the wire back under this number: counts its faults, and keeps what it accepted.
    fn back(&mut self, worker: u16, wire: Self::W)
        ensures counted { faults self.new worker ≡ raised (faults self.old worker) (Self.W.faults wire) }
        ensures kept { list self.new worker ≡ option_and_then (λ _. Self.W.accepted wire) (list self.old worker) }
        ensures other_counts_stay { (n : ℕ) → n ≢ worker → faults self.new n ≡ faults self.old n }
        ensures other_lists_stay { (n : ℕ) → n ≢ worker → list self.new n ≡ list self.old n }
        ensures rooms_stay { (number n : ℕ) → gives_room self.old number n → gives_room self.new number n };
}
