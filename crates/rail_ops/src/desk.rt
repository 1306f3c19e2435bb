ghost use Rattle.std.specs.Prelude.{◌≡◌, ◌<◌, length, IfOk, IsOk, OnErr};
ghost use Rattle.board.specs.Valid.{IsValid};
ghost use Rattle.reg_outside.specs.Bus.{told_by};
ghost use Rattle.plain_board.specs.Untied.{CountsNoLoads, IsUntied};
ghost use Rattle.rail_ops.specs.Exact.{Leaves, Performs};
ghost use Rattle.rail_ops.specs.Sight.{IsReady, placed, shown_by};

use crate::disabling::disable;
use crate::enabling::enable;
use crate::outcome::{Outcome, without_writes};
use crate::releasing::release;
use crate::{looking, opening};
use board::{Board, Handle, RailId};
use rail_state::Rails;
use reg_outside::Wire;
use rows::{Answer, Call};
use std::alloc::{AllocError, Global};
use use_counts::Mine;

/// A worker at its board: the rails that it holds, its wire, its open names, and whether it keeps the
/// register writes that its calls make.
#[derive(Drop)]
pub struct Desk<'a, R: Rails, W: Wire> {
    pub board: &'a Board,
    pub rails: &'a mut R,
    pub wire: &'a mut W,
    pub mine: &'a mut Mine,
    pub worker: u16,
    pub keep: bool,
}

impl<'a, R: Rails, W: Wire> Desk<'a, R, W> {
    /// Where the rail of a handle stands, in µV.
    pub fn get(&mut self, alloc: Global, handle: Handle) -> Result<Outcome, AllocError>
        requires valid { IsValid self.old.board.now }
        requires board { R.board self.old.rails.now ≡ self.old.board.now }
        requires fits { R.fits self.old.rails.now }
        requires ready { IsReady (placed (shown_by R.board R.rails R.bits R.states self.old.rails.now) self.old.mine.now self.old.worker) (Call.Get handle) }
        ensures exact { IfOk result (λ outcome. Performs (Call.Get handle) (placed (shown_by R.board R.rails R.bits R.states self.old.rails.now) self.old.mine.now self.old.worker) (placed (shown_by R.board R.rails R.bits R.states self.new.rails.now) self.new.mine.now self.new.worker) (told_by W.accepted W.plan W.faults self.old.wire.now) (told_by W.accepted W.plan W.faults self.new.wire.now) self.old.keep outcome.answer outcome.writes) }
        ensures ok { IsOk result }
        ensures fits { R.fits self.new.rails.now }
        ensures board { R.board self.new.rails.now ≡ R.board self.old.rails.now }
        ensures rails { R.rails self.new.rails.now ≡ R.rails self.old.rails.now }
        ensures base { R.base self.new.rails.now ≡ R.base self.old.rails.now }
        ensures same_board { self.new.board.now ≡ self.old.board.now }
        ensures worker { self.new.worker ≡ self.old.worker }
        ensures keep { self.new.keep ≡ self.old.keep }
        ensures lent_rails { self.new.rails.ghost_name ≡ self.old.rails.ghost_name }
        ensures lent_wire { self.new.wire.ghost_name ≡ self.old.wire.ghost_name }
        ensures lent_names { self.new.mine.ghost_name ≡ self.old.mine.ghost_name }
    {
        let answer = looking::get(self.board, self.rails, self.mine, self.worker, &handle);
        Ok(without_writes(alloc, answer))
    }

    /// Whether the rail of a handle is on.
    pub fn is_on(&mut self, alloc: Global, handle: Handle) -> Result<Outcome, AllocError>
        requires valid { IsValid self.old.board.now }
        requires board { R.board self.old.rails.now ≡ self.old.board.now }
        requires fits { R.fits self.old.rails.now }
        requires ready { IsReady (placed (shown_by R.board R.rails R.bits R.states self.old.rails.now) self.old.mine.now self.old.worker) (Call.IsOn handle) }
        ensures exact { IfOk result (λ outcome. Performs (Call.IsOn handle) (placed (shown_by R.board R.rails R.bits R.states self.old.rails.now) self.old.mine.now self.old.worker) (placed (shown_by R.board R.rails R.bits R.states self.new.rails.now) self.new.mine.now self.new.worker) (told_by W.accepted W.plan W.faults self.old.wire.now) (told_by W.accepted W.plan W.faults self.new.wire.now) self.old.keep outcome.answer outcome.writes) }
        ensures ok { IsOk result }
        ensures fits { R.fits self.new.rails.now }
        ensures board { R.board self.new.rails.now ≡ R.board self.old.rails.now }
        ensures rails { R.rails self.new.rails.now ≡ R.rails self.old.rails.now }
        ensures base { R.base self.new.rails.now ≡ R.base self.old.rails.now }
        ensures same_board { self.new.board.now ≡ self.old.board.now }
        ensures worker { self.new.worker ≡ self.old.worker }
        ensures keep { self.new.keep ≡ self.old.keep }
        ensures lent_rails { self.new.rails.ghost_name ≡ self.old.rails.ghost_name }
        ensures lent_wire { self.new.wire.ghost_name ≡ self.old.wire.ghost_name }
        ensures lent_names { self.new.mine.ghost_name ≡ self.old.mine.ghost_name }
    {
        let answer = looking::is_on(self.board, self.rails, self.mine, self.worker, &handle);
        Ok(without_writes(alloc, answer))
    }

    /// Opens a handle on a rail, under a name that the worker hasn't open. An exclusive one wants the rail
    /// alone. At `Err` nothing has changed.
    pub fn open_handle(
        &mut self,
        alloc: Global,
        handle: Handle,
        r: RailId,
        exclusive: bool,
    ) -> Result<Outcome, AllocError>
        requires valid { IsValid self.old.board.now }
        requires board { R.board self.old.rails.now ≡ self.old.board.now }
        requires fits { R.fits self.old.rails.now }
        requires there { r.0 < length self.old.board.now.rails }
        requires ready { IsReady (placed (shown_by R.board R.rails R.bits R.states self.old.rails.now) self.old.mine.now self.old.worker) (Call.Open handle r exclusive) }
        ensures exact { IfOk result (λ outcome. Performs (Call.Open handle r exclusive) (placed (shown_by R.board R.rails R.bits R.states self.old.rails.now) self.old.mine.now self.old.worker) (placed (shown_by R.board R.rails R.bits R.states self.new.rails.now) self.new.mine.now self.new.worker) (told_by W.accepted W.plan W.faults self.old.wire.now) (told_by W.accepted W.plan W.faults self.new.wire.now) self.old.keep outcome.answer outcome.writes) }
        ensures err { OnErr result (Leaves (Call.Open handle r exclusive) (placed (shown_by R.board R.rails R.bits R.states self.old.rails.now) self.old.mine.now self.old.worker) (placed (shown_by R.board R.rails R.bits R.states self.new.rails.now) self.new.mine.now self.new.worker) (told_by W.accepted W.plan W.faults self.old.wire.now) (told_by W.accepted W.plan W.faults self.new.wire.now)) }
        ensures fits { R.fits self.new.rails.now }
        ensures board { R.board self.new.rails.now ≡ R.board self.old.rails.now }
        ensures rails { R.rails self.new.rails.now ≡ R.rails self.old.rails.now }
        ensures base { R.base self.new.rails.now ≡ R.base self.old.rails.now }
        ensures same_board { self.new.board.now ≡ self.old.board.now }
        ensures worker { self.new.worker ≡ self.old.worker }
        ensures keep { self.new.keep ≡ self.old.keep }
        ensures lent_rails { self.new.rails.ghost_name ≡ self.old.rails.ghost_name }
        ensures lent_wire { self.new.wire.ghost_name ≡ self.old.wire.ghost_name }
        ensures lent_names { self.new.mine.ghost_name ≡ self.old.mine.ghost_name }
    {
        let answer = opening::open(
            self.board,
            self.rails,
            self.mine,
            self.worker,
            handle,
            r,
            exclusive,
        )?;
        Ok(without_writes(alloc, answer))
    }

    /// Closes a handle that has no enables: its request, its load and its exclusion end, and its name is
    /// free.
    pub fn close_handle(&mut self, alloc: Global, handle: Handle) -> Result<Outcome, AllocError>
        requires valid { IsValid self.old.board.now }
        requires untied { IsUntied self.old.board.now }
        requires no_loads { CountsNoLoads self.old.board.now }
        requires board { R.board self.old.rails.now ≡ self.old.board.now }
        requires fits { R.fits self.old.rails.now }
        requires ready { IsReady (placed (shown_by R.board R.rails R.bits R.states self.old.rails.now) self.old.mine.now self.old.worker) (Call.Close handle) }
        ensures exact { IfOk result (λ outcome. Performs (Call.Close handle) (placed (shown_by R.board R.rails R.bits R.states self.old.rails.now) self.old.mine.now self.old.worker) (placed (shown_by R.board R.rails R.bits R.states self.new.rails.now) self.new.mine.now self.new.worker) (told_by W.accepted W.plan W.faults self.old.wire.now) (told_by W.accepted W.plan W.faults self.new.wire.now) self.old.keep outcome.answer outcome.writes) }
        ensures ok { IsOk result }
        ensures fits { R.fits self.new.rails.now }
        ensures board { R.board self.new.rails.now ≡ R.board self.old.rails.now }
        ensures rails { R.rails self.new.rails.now ≡ R.rails self.old.rails.now }
        ensures base { R.base self.new.rails.now ≡ R.base self.old.rails.now }
        ensures same_board { self.new.board.now ≡ self.old.board.now }
        ensures worker { self.new.worker ≡ self.old.worker }
        ensures keep { self.new.keep ≡ self.old.keep }
        ensures lent_rails { self.new.rails.ghost_name ≡ self.old.rails.ghost_name }
        ensures lent_wire { self.new.wire.ghost_name ≡ self.old.wire.ghost_name }
        ensures lent_names { self.new.mine.ghost_name ≡ self.old.mine.ghost_name }
    {
        let answer = opening::close(self.board, self.rails, self.mine, self.worker, &handle);
        Ok(without_writes(alloc, answer))
    }

    /// Enables a handle once more: the rails that it rests on are switched on where they are off, each
    /// once its supply is on, and the time in µs is answered that they take. At `Err` the memory was out
    /// on the way: the enable isn't counted, and what was switched on stays on.
    pub fn enable(&mut self, alloc: Global, handle: Handle) -> Result<Outcome, AllocError>
        requires valid { IsValid self.old.board.now }
        requires untied { IsUntied self.old.board.now }
        requires no_loads { CountsNoLoads self.old.board.now }
        requires board { R.board self.old.rails.now ≡ self.old.board.now }
        requires fits { R.fits self.old.rails.now }
        requires ready { IsReady (placed (shown_by R.board R.rails R.bits R.states self.old.rails.now) self.old.mine.now self.old.worker) (Call.Enable handle) }
        ensures exact { IfOk result (λ outcome. Performs (Call.Enable handle) (placed (shown_by R.board R.rails R.bits R.states self.old.rails.now) self.old.mine.now self.old.worker) (placed (shown_by R.board R.rails R.bits R.states self.new.rails.now) self.new.mine.now self.new.worker) (told_by W.accepted W.plan W.faults self.old.wire.now) (told_by W.accepted W.plan W.faults self.new.wire.now) self.old.keep outcome.answer outcome.writes) }
        ensures err { OnErr result (Leaves (Call.Enable handle) (placed (shown_by R.board R.rails R.bits R.states self.old.rails.now) self.old.mine.now self.old.worker) (placed (shown_by R.board R.rails R.bits R.states self.new.rails.now) self.new.mine.now self.new.worker) (told_by W.accepted W.plan W.faults self.old.wire.now) (told_by W.accepted W.plan W.faults self.new.wire.now)) }
        ensures fits { R.fits self.new.rails.now }
        ensures board { R.board self.new.rails.now ≡ R.board self.old.rails.now }
        ensures rails { R.rails self.new.rails.now ≡ R.rails self.old.rails.now }
        ensures base { R.base self.new.rails.now ≡ R.base self.old.rails.now }
        ensures same_board { self.new.board.now ≡ self.old.board.now }
        ensures worker { self.new.worker ≡ self.old.worker }
        ensures keep { self.new.keep ≡ self.old.keep }
        ensures lent_rails { self.new.rails.ghost_name ≡ self.old.rails.ghost_name }
        ensures lent_wire { self.new.wire.ghost_name ≡ self.old.wire.ghost_name }
        ensures lent_names { self.new.mine.ghost_name ≡ self.old.mine.ghost_name }
    {
        enable(
            alloc,
            self.board,
            self.rails,
            self.wire,
            self.mine,
            self.worker,
            self.keep,
            &handle,
        )
    }

    /// Gives up an enable of a handle, and switches off the rails that it rests on from below, as long as
    /// each is idle. The enable stays given up wherever the bus refuses a write, and at `Err`, where the
    /// memory was out on the way: what was switched off stays off.
    pub fn disable(&mut self, alloc: Global, handle: Handle) -> Result<Outcome, AllocError>
        requires valid { IsValid self.old.board.now }
        requires untied { IsUntied self.old.board.now }
        requires no_loads { CountsNoLoads self.old.board.now }
        requires board { R.board self.old.rails.now ≡ self.old.board.now }
        requires fits { R.fits self.old.rails.now }
        requires ready { IsReady (placed (shown_by R.board R.rails R.bits R.states self.old.rails.now) self.old.mine.now self.old.worker) (Call.Disable handle) }
        ensures exact { IfOk result (λ outcome. Performs (Call.Disable handle) (placed (shown_by R.board R.rails R.bits R.states self.old.rails.now) self.old.mine.now self.old.worker) (placed (shown_by R.board R.rails R.bits R.states self.new.rails.now) self.new.mine.now self.new.worker) (told_by W.accepted W.plan W.faults self.old.wire.now) (told_by W.accepted W.plan W.faults self.new.wire.now) self.old.keep outcome.answer outcome.writes) }
        ensures err { OnErr result (Leaves (Call.Disable handle) (placed (shown_by R.board R.rails R.bits R.states self.old.rails.now) self.old.mine.now self.old.worker) (placed (shown_by R.board R.rails R.bits R.states self.new.rails.now) self.new.mine.now self.new.worker) (told_by W.accepted W.plan W.faults self.old.wire.now) (told_by W.accepted W.plan W.faults self.new.wire.now)) }
        ensures fits { R.fits self.new.rails.now }
        ensures board { R.board self.new.rails.now ≡ R.board self.old.rails.now }
        ensures rails { R.rails self.new.rails.now ≡ R.rails self.old.rails.now }
        ensures base { R.base self.new.rails.now ≡ R.base self.old.rails.now }
        ensures same_board { self.new.board.now ≡ self.old.board.now }
        ensures worker { self.new.worker ≡ self.old.worker }
        ensures keep { self.new.keep ≡ self.old.keep }
        ensures lent_rails { self.new.rails.ghost_name ≡ self.old.rails.ghost_name }
        ensures lent_wire { self.new.wire.ghost_name ≡ self.old.wire.ghost_name }
        ensures lent_names { self.new.mine.ghost_name ≡ self.old.mine.ghost_name }
    {
        disable(
            alloc,
            self.board,
            self.rails,
            self.wire,
            self.mine,
            self.worker,
            self.keep,
            &handle,
        )
    }

    /// Ends the holds of the start, but for those of rails that are always on, and switches off the rails
    /// that are idle then, each before its supply. The holds stay ended wherever the bus refuses a write,
    /// and at `Err`, where the memory was out on the way: what was switched off stays off.
    pub fn release_boot(&mut self, alloc: Global) -> Result<Outcome, AllocError>
        requires valid { IsValid self.old.board.now }
        requires untied { IsUntied self.old.board.now }
        requires no_loads { CountsNoLoads self.old.board.now }
        requires board { R.board self.old.rails.now ≡ self.old.board.now }
        requires fits { R.fits self.old.rails.now }
        requires ready { IsReady (placed (shown_by R.board R.rails R.bits R.states self.old.rails.now) self.old.mine.now self.old.worker) Call.ReleaseBoot }
        ensures exact { IfOk result (λ outcome. Performs Call.ReleaseBoot (placed (shown_by R.board R.rails R.bits R.states self.old.rails.now) self.old.mine.now self.old.worker) (placed (shown_by R.board R.rails R.bits R.states self.new.rails.now) self.new.mine.now self.new.worker) (told_by W.accepted W.plan W.faults self.old.wire.now) (told_by W.accepted W.plan W.faults self.new.wire.now) self.old.keep outcome.answer outcome.writes) }
        ensures err { OnErr result (Leaves Call.ReleaseBoot (placed (shown_by R.board R.rails R.bits R.states self.old.rails.now) self.old.mine.now self.old.worker) (placed (shown_by R.board R.rails R.bits R.states self.new.rails.now) self.new.mine.now self.new.worker) (told_by W.accepted W.plan W.faults self.old.wire.now) (told_by W.accepted W.plan W.faults self.new.wire.now)) }
        ensures fits { R.fits self.new.rails.now }
        ensures board { R.board self.new.rails.now ≡ R.board self.old.rails.now }
        ensures rails { R.rails self.new.rails.now ≡ R.rails self.old.rails.now }
        ensures base { R.base self.new.rails.now ≡ R.base self.old.rails.now }
        ensures same_board { self.new.board.now ≡ self.old.board.now }
        ensures worker { self.new.worker ≡ self.old.worker }
        ensures keep { self.new.keep ≡ self.old.keep }
        ensures lent_rails { self.new.rails.ghost_name ≡ self.old.rails.ghost_name }
        ensures lent_wire { self.new.wire.ghost_name ≡ self.old.wire.ghost_name }
        ensures lent_names { self.new.mine.ghost_name ≡ self.old.mine.ghost_name }
    {
        if self.rails.state(RailId(0)).is_suspended() {
            return Ok(without_writes(alloc, Answer::Suspended));
        }
        release(alloc, self.board, self.rails, self.wire, self.keep)
    }
}
