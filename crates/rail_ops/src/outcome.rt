ghost use Rattle.std.specs.Prelude.{◌≡◌, []};

use board::Write;
use item_list::Items;
use rows::Answer;
use std::alloc::Global;

/// What a call is answered, and the register writes of the moves that it made, where they are kept.
#[derive(Drop)]
pub struct Outcome {
    pub answer: Answer,
    pub writes: Items<Write>,
}

/// An answer to a call that writes no register.
pub(crate) fn without_writes(alloc: Global, answer: Answer) -> Outcome
    ensures { result ≡ record { answer = answer; writes = [] } }
{
    Outcome {
        answer,
        writes: Items::new(alloc),
    }
}
