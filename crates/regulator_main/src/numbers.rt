ghost use Rattle.std.specs.Prelude.{ℕ, ◌≡◌, ◌==◌, IfOk};
ghost use Rattle.std.specs.List.{list_any};
ghost use Rattle.plain_board.specs.Stops.{is_planned};

use std::alloc::{AllocError, Global};

/// The numbers of a worker's updates that are planned to be refused; worker 0 is the load.
pub(crate) fn numbers_of(
    alloc: Global,
    refusals: &[(u16, u32)],
    worker: u16,
) -> Result<Vec<u32>, AllocError>
    ensures { IfOk result (λ numbers. (number : ℕ) → list_any (λ planned. planned == number) numbers.items ≡ is_planned refusals.now worker number) }
{
    let mut numbers = Vec::new(alloc);
    for refusal in refusals {
        if refusal.0 == worker {
            numbers.push(refusal.1)?;
        }
    }
    Ok(numbers)
}
