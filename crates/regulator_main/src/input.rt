ghost use Rattle.std.specs.Prelude.{◌≡◌, ◌≢◌, ◌+◌, ◌<◌, ◌≤◌, ◌++◌, Err, length, take, IfOk, OnOk, OnErr};
ghost use Rattle.reg_outside.specs.Count.{Rose};
ghost use Rattle.reg_outside.specs.Told.{with_before, IsSpent};
ghost use Rattle.regulator_main.specs.Input.{TookAtMost};
ghost use Rattle.regulator_main.specs.declared.input.InputError.TheVariants.{Failed as input_failed, Memory as input_memory};

use reg_outside::{Failed, Source};
use session::SESSION_LIMIT;
use std::alloc::{AllocError, Global};

/// How many bytes are read at once.
const PIECE: usize = 65_536;

/// Why the input was not read to its end.
#[derive(Clone, Copy)]
pub(crate) enum InputError {
    /// There was no memory for it.
    Memory,
    /// The source failed.
    Failed,
}

impl From<AllocError> for InputError {
    ghost from_gives = { λ _ e. e ≡ input_memory };

    fn from(_e: AllocError) -> InputError {
        InputError::Memory
    }
}

impl From<Failed> for InputError {
    ghost from_gives = { λ _ e. e ≡ input_failed };

    fn from(_e: Failed) -> InputError {
        InputError::Failed
    }
}

/// Reads up to the end of the input, or until more bytes came than a session may have: never more
/// than one byte above that limit.
pub(crate) fn read_input<S: Source>(alloc: Global, source: &mut S) -> Result<Vec<u8>, InputError>
    ensures taken { IfOk result (λ v. S.left source.old ≡ with_before v.items (S.left source.new)) }
    ensures whole { IfOk result (λ v. length v.items ≤ SESSION_LIMIT → IsSpent (S.left source.new)) }
    ensures limit { IfOk result (λ v. length v.items ≤ SESSION_LIMIT + 1) }
    ensures stopped { OnErr result (TookAtMost (SESSION_LIMIT + 1) (S.left source.old) (S.left source.new)) }
    ensures failed { result ≡ Err InputError.Failed → Rose (S.faults source.old) (S.faults source.new) }
    ensures count { result ≢ Err InputError.Failed → S.faults source.new ≡ S.faults source.old }
{
    let mut space = space_of(alloc, PIECE)?;
    let buffer = space.as_mut_slice();
    let mut bytes = Vec::new(alloc);
    'pieces: while bytes.len() <= SESSION_LIMIT {
        let room = (SESSION_LIMIT + 1 - bytes.len()).min(PIECE);
        if take_piece(source, &mut buffer[..room], &mut bytes)? == 0 {
            return Ok(bytes);
        }
    }
    Ok(bytes)
}

/// So many bytes to read into.
fn space_of(alloc: Global, count: usize) -> Result<Vec<u8>, AllocError>
    ensures { IfOk result (λ v. length v.items ≡ count) }
{
    vec![in alloc; 0; count]
}

/// Reads once, and puts what came at the end of `bytes`. Says how much that was; 0 is the end.
fn take_piece<S: Source>(
    source: &mut S,
    buffer: &mut [u8],
    bytes: &mut Vec<u8>,
) -> Result<usize, InputError>
    requires { 0 < length buffer.old }
    ensures within { IfOk result (λ n. n ≤ length buffer.new) }
    ensures taken { IfOk result (λ n. S.left source.old ≡ with_before (take n buffer.new) (S.left source.new)) }
    ensures grown { IfOk result (λ n. bytes.new.items ≡ bytes.old.items ++ take n buffer.new) }
    ensures end { IfOk result (λ n. n ≡ 0 → IsSpent (S.left source.new)) }
    ensures stopped { OnErr result (TookAtMost (length buffer.old) (S.left source.old) (S.left source.new)) }
    ensures failed { result ≡ Err InputError.Failed → Rose (S.faults source.old) (S.faults source.new) }
    ensures count { result ≢ Err InputError.Failed → S.faults source.new ≡ S.faults source.old }
{
    let n = source.read(buffer)?;
    bytes.extend_from_slice(&buffer[..n])?;
    Ok(n)
}
