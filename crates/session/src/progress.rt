ghost use Rattle.std.specs.Prelude.{◌≡◌, ◌≢◌, ◌++◌, ◌∷◌, [], OnOk, IfErr, IsTrue, ◌↔◌};
ghost use Rattle.session.specs.Frame.{BoardPart, end_line};
ghost use Rattle.session.specs.Grammar.{RefusesLine};
ghost use Rattle.session.specs.Inside.Progress.{IsBeginning, IsOutside, IsSound, Reads, done_line, lines_read, worker_line};

use crate::calls::next_call;
use crate::fault::SessionKind;
use crate::setup::{Setup, parse_setup};
use item_list::Items;
use rows::Call;
use std::alloc::{AllocError, Global};
use std::mem;

/// The most workers that a session may have.
const WORKER_LIMIT: usize = 16;

/// The most call lines that a worker may have.
const CALL_LIMIT: usize = 4_096;

/// Where in a session the next line stands.
#[derive(Clone, Copy)]
pub(crate) enum Stage {
    /// Behind the board, or behind a setup line.
    Setup,
    /// Behind the first line of a worker, or behind a call line.
    Worker,
    /// Behind the last line of a worker.
    Between,
    /// Behind the last line of the session.
    Done,
}

/// What was read of a session behind its board.
#[derive(Drop)]
pub(crate) struct Progress {
    pub(crate) stage: Stage,
    /// Whether the board is the built-in one.
    pub(crate) demo: bool,
    pub(crate) setup: Items<Setup>,
    /// The scripts of the workers that were read to their ends.
    pub(crate) scripts: Items<Items<Call>>,
    /// What was read of the script of the worker that wasn't.
    pub(crate) script: Items<Call>,
}

impl From<AllocError> for SessionKind {
    ghost use Rattle.std.specs.Prelude.{◌≡◌};
    ghost use Rattle.session.specs.declared.fault.SessionKind.TheVariants.{Memory};

    ghost from_gives = { λ _ kind. kind ≡ Memory };

    fn from(_: AllocError) -> SessionKind {
        SessionKind::Memory
    }
}

impl Progress {
    /// Nothing was read yet.
    pub(crate) fn new(alloc: Global, demo: bool) -> Progress
        ensures { result ≡ record { stage = Stage.Setup; demo = demo; setup = []; scripts = []; script = [] } }
    {
        Progress {
            stage: Stage::Setup,
            demo,
            setup: Items::new(alloc),
            scripts: Items::new(alloc),
            script: Items::new(alloc),
        }
    }

    /// Whether the last line of the session was read.
    pub(crate) fn is_done(&self) -> bool
        ensures { IsTrue result ↔ (self.now.stage ≡ Stage.Done) }
    {
        matches!(self.stage, Stage::Done)
    }

    /// Reads the next line, or tells why no session goes on with it.
    pub(crate) fn take_line(&mut self, alloc: Global, line: &[u8]) -> Result<(), SessionKind>
        requires { IsBeginning self.old }
        ensures ok { OnOk result ((board : BoardPart) → IsSound board self.old → Reads board self.old line.now self.new) }
        ensures err { IfErr result (λ kind. kind ≢ SessionKind.Memory → (board : BoardPart) → IsSound board self.old → RefusesLine kind (lines_read board self.old ++ line.now ∷ [])) }
    {
        match self.stage {
            Stage::Worker => self.take_call(alloc, line),
            Stage::Done => Err(SessionKind::BadSession),
            Stage::Setup | Stage::Between => self.take_keyword(line),
        }
    }

    /// Reads a line that stands in no worker.
    fn take_keyword(&mut self, line: &[u8]) -> Result<(), SessionKind>
        requires { IsOutside self.old.stage }
        ensures ok { OnOk result ((board : BoardPart) → IsSound board self.old → Reads board self.old line.now self.new) }
        ensures err { IfErr result (λ kind. kind ≢ SessionKind.Memory → (board : BoardPart) → IsSound board self.old → RefusesLine kind (lines_read board self.old ++ line.now ∷ [])) }
    {
        if line == b"%worker".as_slice() {
            return self.begin_worker();
        }
        if line == b"%done".as_slice() {
            self.stage = Stage::Done;
            return Ok(());
        }
        match self.stage {
            Stage::Setup => self.take_setup(line),
            _ => Err(SessionKind::BadSession),
        }
    }

    /// Begins a worker.
    fn begin_worker(&mut self) -> Result<(), SessionKind>
        requires { IsOutside self.old.stage }
        ensures ok { OnOk result ((board : BoardPart) → IsSound board self.old → Reads board self.old worker_line self.new) }
        ensures err { IfErr result (λ kind. (board : BoardPart) → IsSound board self.old → RefusesLine kind (lines_read board self.old ++ worker_line ∷ [])) }
    {
        if self.scripts.len() == WORKER_LIMIT {
            return Err(SessionKind::TooManyWorkers);
        }
        self.stage = Stage::Worker;
        Ok(())
    }

    /// Reads a line behind the board that is no keyword.
    fn take_setup(&mut self, line: &[u8]) -> Result<(), SessionKind>
        requires stage { self.old.stage ≡ Stage.Setup }
        requires not_worker { line.now ≢ worker_line }
        requires not_done { line.now ≢ done_line }
        ensures ok { OnOk result ((board : BoardPart) → IsSound board self.old → Reads board self.old line.now self.new) }
        ensures err { IfErr result (λ kind. kind ≢ SessionKind.Memory → (board : BoardPart) → IsSound board self.old → RefusesLine kind (lines_read board self.old ++ line.now ∷ [])) }
    {
        let Some(setup) = parse_setup(line) else {
            return Err(SessionKind::BadSession);
        };
        self.setup.push(setup)?;
        Ok(())
    }

    /// Reads a line that stands in a worker.
    fn take_call(&mut self, alloc: Global, line: &[u8]) -> Result<(), SessionKind>
        requires stage { self.old.stage ≡ Stage.Worker }
        requires beginning { IsBeginning self.old }
        ensures ok { OnOk result ((board : BoardPart) → IsSound board self.old → Reads board self.old line.now self.new) }
        ensures err { IfErr result (λ kind. kind ≢ SessionKind.Memory → (board : BoardPart) → IsSound board self.old → RefusesLine kind (lines_read board self.old ++ line.now ∷ [])) }
    {
        if line == b"%end".as_slice() {
            return self.end_worker(alloc);
        }
        if !self.demo {
            return Err(SessionKind::NotYet);
        }
        let Some(call) = next_call(self.script.as_slice(), line) else {
            return Err(SessionKind::NotYet);
        };
        if self.script.len() == CALL_LIMIT {
            return Err(SessionKind::TooManyLines);
        }
        self.script.push(call)?;
        Ok(())
    }

    /// Ends the worker.
    fn end_worker(&mut self, alloc: Global) -> Result<(), SessionKind>
        requires { self.old.stage ≡ Stage.Worker }
        ensures ok { OnOk result ((board : BoardPart) → IsSound board self.old → Reads board self.old end_line self.new) }
        ensures err { IfErr result (λ kind. kind ≡ SessionKind.Memory) }
    {
        let script = mem::replace(&mut self.script, Items::new(alloc));
        self.scripts.push(script)?;
        self.stage = Stage::Between;
        Ok(())
    }
}
