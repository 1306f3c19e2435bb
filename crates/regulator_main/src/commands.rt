ghost use Rattle.std.specs.Prelude.{◌≡◌, ◌≢◌, ◌≤◌, [], length, IfOk, OnOk, map, string_bytes};
ghost use Rattle.board.specs.Valid.{IsValid};
ghost use Rattle.plain_board.specs.Inv.{Inv};
ghost use Rattle.session.specs.Session.{ArePlayable};
ghost use Rattle.session.specs.Text.{refusal_text};
ghost use Rattle.regulator_main.specs.declared.words.Command.TheVariants.{Check, Solo};
ghost use Rattle.regulator_main.specs.Front.{CommandGoes, IsRun};
ghost use Rattle.regulator_main.specs.Outside.{outside, Writes};
ghost use Rattle.regulator_main.specs.Reply.{Does, Replies};
ghost use Rattle.regulator_main.specs.Runs.{text_of, load_fault_text};

use crate::input::{InputError, read_input};
use crate::output::write_text;
use crate::play::{PlayFault, play};
use crate::status::Status;
use crate::words::{Command, command_of};
use plain_board::summary;
use reg_outside::{Lab, Sink, Source};
use rows::hex_text;
use session::laws::one_reading;
use session::{Session, SessionFault, SessionKind, read_session};
use std::alloc::{AllocError, Global};
use std::sync::Wait;
use std::thread::Threads;

/// The line of a load that was stopped at the update of this register.
fn load_fault_line(alloc: Global, chip: u8, reg: u8) -> Result<String, AllocError>
    ensures { IfOk result (λ line. string_bytes line ≡ load_fault_text chip reg) }
{
    let reg = hex_text(alloc, reg)?;
    let words = format!(in alloc; "loadfault {chip} {reg}")?;
    format!(in alloc; "{words}\n")
}

/// Where the rails of a session's board stand once it is loaded.
fn check(alloc: Global, session: &Session) -> Result<Vec<u8>, AllocError>
    requires valid { IsValid session.now.loaded.board }
    requires inv { Inv session.now.loaded.board session.now.loaded.plain }
    requires none_yet { session.now.loaded.plain.handles ≡ [] }
    requires playable { ArePlayable session.now.loaded.board session.now.scripts }
    ensures { IfOk result (λ text. text.items ≡ text_of session.now []) }
{
    let mut text = Vec::new(alloc);
    let loaded = &session.loaded;
    let workers = session.scripts.len() as u16;
    summary(alloc, &loaded.board, &loaded.plain, workers, 0, &mut text)?;
    Ok(text)
}

/// Runs a session through the lab: what is written of that, and how the run ends.
fn solo<L: Lab>(
    alloc: Global,
    session: Session,
    lab: &mut L,
) -> Result<(Vec<u8>, Status), AllocError>
    requires valid { IsValid session.loaded.board }
    requires inv { Inv session.loaded.board session.loaded.plain }
    requires none_yet { session.loaded.plain.handles ≡ [] }
    requires playable { ArePlayable session.loaded.board session.scripts }
    ensures { IfOk result (λ said. Does Solo session (record { text = said.0.items; end = said.1; before = record { counts = L.faults lab.old; lists = L.list lab.old }; after = record { counts = L.faults lab.new; lists = L.list lab.new } })) }
{
    match play(alloc, session, lab) {
        Ok(text) => Ok((text, Status::Done)),
        Err(PlayFault::Load { chip, reg }) => {
            let line = load_fault_line(alloc, chip, reg)?;
            Ok((line.into_bytes(), Status::LoadFault { chip, reg }))
        }
        Err(PlayFault::Memory) => Err(AllocError),
    }
}

/// What is written of a session that is refused.
fn refuse(alloc: Global, fault: SessionFault) -> Result<Vec<u8>, AllocError>
    ensures known { OnOk result (fault.kind ≢ SessionKind.Memory) }
    ensures text { IfOk result (λ text. text.items ≡ refusal_text fault) }
{
    match fault.kind {
        SessionKind::Memory => Err(AllocError),
        _ => {
            let line = fault.text(alloc)?;
            Ok(line.into_bytes())
        }
    }
}

/// What a command writes of a text, and how the run ends then.
fn reply<L: Lab>(
    alloc: Global,
    command: Command,
    bytes: &[u8],
    lab: &mut L,
) -> Result<(Vec<u8>, Status), AllocError>
    ensures { IfOk result (λ said. Replies command bytes.now (record { text = said.0.items; end = said.1; before = record { counts = L.faults lab.old; lists = L.list lab.old }; after = record { counts = L.faults lab.new; lists = L.list lab.new } })) }
{
    match read_session(alloc, bytes) {
        Ok(session) => match command {
            Command::Check => Ok((check(alloc, &session)?, Status::Done)),
            Command::Solo => solo(alloc, session, lab),
        },
        Err(fault) => Ok((refuse(alloc, fault)?, Status::SessionRefused(fault))),
    }
}

/// Writes a text whole and ends so, or says how much of it was written.
fn send<K: Sink>(sink: &mut K, text: &[u8], end: Status) -> Status
    ensures { Writes text.now end (record { written = K.written sink.old; faults = K.faults sink.old }) (record { written = K.written sink.new; faults = K.faults sink.new }) result }
{
    match write_text(sink, text) {
        Ok(()) => end,
        Err(kept) => Status::WriteFault { kept: kept as u64 },
    }
}

/// Reads a text, and writes the reply of a command to it.
fn answer<S: Source, K: Sink, L: Lab>(
    alloc: Global,
    command: Command,
    source: &mut S,
    sink: &mut K,
    lab: &mut L,
) -> Status
    ensures { CommandGoes command (outside (S.left source.old) (S.faults source.old) (K.written sink.old) (K.faults sink.old) (L.faults lab.old) (L.list lab.old)) (outside (S.left source.new) (S.faults source.new) (K.written sink.new) (K.faults sink.new) (L.faults lab.new) (L.list lab.new)) result }
{
    let bytes = match read_input(alloc, source) {
        Ok(bytes) => bytes,
        Err(InputError::Memory) => return Status::Memory,
        Err(InputError::Failed) => return Status::ReadFault,
    };
    match reply(alloc, command, bytes.as_slice(), lab) {
        Ok((text, end)) => send(sink, text.as_slice(), end),
        Err(_) => Status::Memory,
    }
}

/// Runs the command of these words. `check` reads a session from the source, loads its board without an
/// update, and writes where the rails stand. `solo` loads it through the lab, runs the scripts one after
/// another with the wires of the lab, and writes the rows in order and a summary.
///
/// It ends with `Words` where the words are no command, `ReadFault` or `WriteFault` where the source or
/// the sink failed, `SessionRefused` where the text has a fault, `LoadFault` where an update of the load was
/// refused, and `Memory` where there was none left. The whole text is made before its first byte is written.
pub fn front<S: Source, K: Sink, L: Lab>(
    alloc: Global,
    words: &[String],
    source: &mut S,
    sink: &mut K,
    lab: &mut L,
) -> Status
    ensures { IsRun (map string_bytes words.now) (outside (S.left source.old) (S.faults source.old) (K.written sink.old) (K.faults sink.old) (L.faults lab.old) (L.list lab.old)) (outside (S.left source.new) (S.faults source.new) (K.written sink.new) (K.faults sink.new) (L.faults lab.new) (L.list lab.new)) result }
{
    one_reading();
    match command_of(words) {
        Some(command) => answer(alloc, command, source, sink, lab),
        None => Status::Words,
    }
}

/// The same for a caller with threads, which no command needs so far.
pub fn top<H: Threads + Wait + Sync, S: Source, K: Sink, L: Lab>(
    _rt: &H,
    alloc: Global,
    words: &[String],
    source: &mut S,
    sink: &mut K,
    lab: &mut L,
) -> Status
    ensures { IsRun (map string_bytes words.now) (outside (S.left source.old) (S.faults source.old) (K.written sink.old) (K.faults sink.old) (L.faults lab.old) (L.list lab.old)) (outside (S.left source.new) (S.faults source.new) (K.written sink.new) (K.faults sink.new) (L.faults lab.new) (L.list lab.new)) result }
{
    front(alloc, words, source, sink, lab)
}
