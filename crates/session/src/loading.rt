ghost use Rattle.std.specs.Prelude.{◌≡◌, ◌≢◌, ◌<◌, ◌≤◌, ◌+◌, false, length, All, None, Some, IfOk, IfErr, OnOk, IfSome};
ghost use Rattle.std.specs.Option.{option_copied};
ghost use Rattle.board.specs.Valid.{IsValid};
ghost use Rattle.board_load.specs.Loading.{load, HasValueInside};
ghost use Rattle.board_load.specs.Registers.{NameChips};
ghost use Rattle.plain_board.specs.Inv.{Inv};
ghost use Rattle.session.specs.Loading.{names_no_chip, bad_register, found_regs, setup_fault};
ghost use Rattle.session.specs.Inside.Loaded.{early_fault, lines_before, IsLoaded, IsRefused};
ghost use Rattle.session.specs.Session.{session_limit};

use crate::board_text::{draft_board, lines_before};
use crate::fault::{SessionFault, SessionKind};
use crate::setup::Setup;
use crate::unbuilt::is_unbuilt;
use board_draft::Drafted;
use board_load::{FinishFault, Loaded, finish, reset_regs};
use chip_regs::Regs;
use std::alloc::{AllocError, Global};

impl From<FinishFault> for SessionFault {
    ghost use Rattle.std.specs.Prelude.{◌≡◌};
    ghost use Rattle.session.specs.Inside.Loaded.{of_finish};

    ghost from_gives = { λ from fault. fault ≡ of_finish from };

    fn from(fault: FinishFault) -> SessionFault {
        match fault {
            FinishFault::NoVector(r) => SessionFault {
                line: 2,
                kind: SessionKind::NoVector(r),
            },
            FinishFault::Memory => SessionFault::from(AllocError),
        }
    }
}

/// Whether the line names a chip that isn't on the board.
fn names_no_chip(chips: u8, line: &Setup) -> bool
    ensures { result ≡ names_no_chip chips line.now }
{
    match *line {
        Setup::Register { chip, .. } => chip >= u32::from(chips),
        Setup::Refusal { .. } => false,
    }
}

/// The first line of a setup that names a chip which isn't on the board. So many lines stand before the setup.
fn bad_register(chips: u8, before: u32, setup: &[Setup]) -> Option<SessionFault>
    requires { before + length setup.now ≤ session_limit }
    ensures { result ≡ bad_register chips before setup.now }
{
    for (at, line) in setup.iter().enumerate() {
        if names_no_chip(chips, line) {
            return Some(SessionFault {
                line: before + at as u32 + 1,
                kind: SessionKind::BadReg,
            });
        }
    }
    None
}

/// What is refused before a register is looked at.
fn early_fault(drafted: &Drafted, before: u32, setup: &[Setup]) -> Option<SessionFault>
    requires { before + length setup.now ≤ session_limit }
    ensures { result ≡ early_fault before setup.now drafted.now }
{
    let bad = bad_register(drafted.board.chips, before, setup);
    if bad.is_some() {
        return bad;
    }
    if !is_unbuilt(&drafted.board) {
        return None;
    }
    Some(SessionFault {
        line: 2,
        kind: SessionKind::NotYet,
    })
}

/// The number of a chip that is on the board.
fn chip_number(chips: u8, chip: u32) -> u8
    requires { chip < chips }
    ensures { result ≡ chip }
{
    prove!(chip < u32::from(chips));
    chip as u8
}

/// The registers that a session finds: those of a reset, with those of its setup.
fn found_regs(alloc: Global, drafted: &Drafted, setup: &[Setup]) -> Result<Regs, AllocError>
    requires resets { NameChips drafted.now.board.chips drafted.now.resets }
    requires chips { All (λ line. names_no_chip drafted.now.board.chips line ≡ false) setup.now }
    ensures regs { IfOk result (λ regs. regs ≡ found_regs drafted.now setup.now) }
    ensures chips { IfOk result (λ regs. length regs ≡ drafted.now.board.chips) }
{
    let mut regs = reset_regs(alloc, drafted)?;
    for line in setup {
        if let Setup::Register { chip, reg, value } = line {
            let chip = chip_number(drafted.board.chips, *chip);
            regs.set_byte(chip, *reg, *value);
        }
    }
    Ok(regs)
}

/// Loads a board with a setup that stands behind so many lines.
fn load_drafted(
    alloc: Global,
    drafted: Drafted,
    before: u32,
    setup: &[Setup],
) -> Result<Loaded, SessionFault>
    requires valid { IsValid drafted.board }
    requires inside { All HasValueInside drafted.board.rails }
    requires resets { NameChips drafted.board.chips drafted.resets }
    requires few { before + length setup.now ≤ session_limit }
    ensures none { OnOk result (setup_fault before setup.now drafted ≡ None) }
    ensures loaded { IfOk result (λ loaded. load drafted.board (found_regs drafted setup.now) ≡ Some loaded) }
    ensures fault { IfErr result (λ fault. fault.kind ≢ SessionKind.Memory → setup_fault before setup.now drafted ≡ Some fault) }
    ensures valid { IfOk result (λ loaded. IsValid loaded.board) }
    ensures inv { IfOk result (λ loaded. Inv loaded.board loaded.plain) }
{
    if let Some(fault) = early_fault(&drafted, before, setup) {
        return Err(fault);
    }
    let regs = found_regs(alloc, &drafted, setup)?;
    Ok(finish(alloc, drafted, regs)?)
}

/// Loads the board of a session with its setup.
pub(crate) fn load_board(
    alloc: Global,
    text: Option<&[u8]>,
    setup: &[Setup],
) -> Result<Loaded, SessionFault>
    requires short { IfSome (option_copied text) (λ text. length text ≤ session_limit) }
    requires few { lines_before (option_copied text) + length setup.now ≤ session_limit }
    ensures loaded { IfOk result (λ loaded. IsLoaded (option_copied text.entry) setup.now loaded) }
    ensures fault { IfErr result (λ fault. fault.kind ≢ SessionKind.Memory → IsRefused (option_copied text.entry) setup.now fault) }
    ensures valid { IfOk result (λ loaded. IsValid loaded.board) }
    ensures inv { IfOk result (λ loaded. Inv loaded.board loaded.plain) }
{
    let before = lines_before(text);
    let drafted = draft_board(alloc, text)?;
    load_drafted(alloc, drafted, before, setup)
}
