ghost use Rattle.std.specs.Prelude.{ℕ, ◌≡◌, ◌≢◌, IfSome, IfNone};
ghost use Rattle.session.specs.declared.setup.Setup.{Setup as TheSetup};
ghost use Rattle.session.specs.declared.setup.Setup.TheVariants.{Register, Refusal};
ghost use Rattle.session.specs.Frame.{setup_text, IsSetup};

use rows::reading::{after_prefix, parse_hex_pair, parse_number, parse_number_pair, split_first};

/// A line between the board of a session and its workers.
#[derive(Clone, Copy)]
pub(crate) enum Setup {
    /// A register of a chip, and its content.
    Register { chip: u32, reg: u8, value: u8 },
    /// A worker, and the number of its update that is refused, from 1; worker 0 is the load.
    Refusal { worker: u16, update: u32 },
}

/// The chip, the register and its content that a `%reg` line gives.
fn parse_register(line: &[u8]) -> Option<(u32, u8, u8)>
    ensures some { IfSome result (λ parts. IsSetup (Register parts.0 parts.1 parts.2) × (line.now ≡ setup_text (Register parts.0 parts.1 parts.2))) }
    ensures none { IfNone result ((chip reg value : ℕ) → IsSetup (Register chip reg value) → line.now ≢ setup_text (Register chip reg value)) }
{
    let words = after_prefix(line, b"%reg ")?;
    let (chip, bytes) = split_first(words, b' ')?;
    let chip = parse_number(chip)?;
    let (reg, value) = parse_hex_pair(bytes)?;
    Some((chip, reg, value))
}

/// The worker and the number of its update that a `%fault` line refuses.
fn parse_refusal(line: &[u8]) -> Option<(u16, u32)>
    ensures some { IfSome result (λ parts. IsSetup (Refusal parts.0 parts.1) × (line.now ≡ setup_text (Refusal parts.0 parts.1))) }
    ensures none { IfNone result ((worker update : ℕ) → IsSetup (Refusal worker update) → line.now ≢ setup_text (Refusal worker update)) }
{
    let words = after_prefix(line, b"%fault ")?;
    let (worker, update) = parse_number_pair(words)?;
    if worker > 16 || update == 0 {
        return None;
    }
    Some((worker as u16, update))
}

/// The setup line that this line is.
pub(crate) fn parse_setup(line: &[u8]) -> Option<Setup>
    ensures some { IfSome result (λ setup. IsSetup setup × (line.now ≡ setup_text setup)) }
    ensures none { IfNone result ((setup : TheSetup) → IsSetup setup → line.now ≢ setup_text setup) }
{
    if let Some((chip, reg, value)) = parse_register(line) {
        return Some(Setup::Register { chip, reg, value });
    }
    let (worker, update) = parse_refusal(line)?;
    Some(Setup::Refusal { worker, update })
}
