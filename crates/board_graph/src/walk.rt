ghost use Rattle.std.specs.Prelude.{◌≡◌, ◌<◌, ◌++◌, ◌∷◌, [], ℕ, List, true, false, IfNone, IfOk, IfSome, MatchOption, OnOk, length, map, replicate, drop, slice_index, slice_index_or, take};
ghost use Rattle.std.specs.Bool.{OnTrue, OnFalse};
ghost use Rattle.board_graph.specs.declared.visit.Visit.TheVariants.{New};
ghost use Rattle.board_graph.specs.Loops.{IsLeastSuch};
ghost use Rattle.board_graph.specs.Ways.{Leads};
ghost use Rattle.board_graph.specs.Inside.Net.{IsNet, StepsTo};
ghost use Rattle.board_graph.specs.Inside.Walk.{is_loop_from, is_on_loop, is_seen, opened, visit_of, work_of, AreLoops, AreReached, AreSettled, GoOn, Grows, GrowsFrom, IsAtRest, IsDone, IsSound};

use crate::knot::Knot;
use crate::visit::Visit;
use item_list::Items;
use std::alloc::{AllocError, Global};

/// A walk through vertices along their steps, that finds which of them are on loops.
pub(crate) struct Walk {
    pub(crate) visits: Items<Visit>,
    /// The open vertices: each leads to those after it.
    pub(crate) path: Items<u16>,
    /// Where the steps of open vertices lead that haven't been followed.
    pub(crate) pending: Items<u16>,
    /// The knots share out the path and the pending steps.
    pub(crate) knots: Items<Knot>,
}

impl Drop for Walk {
    /// Ends all parts, so that an owner's code has one call for it.
    fn drop(self) {
        let Walk {
            visits: _,
            path: _,
            pending: _,
            knots: _,
        } = self;
    }
}

/// Of each vertex whether it is on a loop, where `next` has for each vertex those that it leads on to.
pub(crate) fn loops(alloc: Global, next: &[Items<u16>]) -> Result<Items<bool>, AllocError>
    requires few { length next.now < 65536 }
    requires net { IsNet next.now }
    ensures { IfOk result (AreLoops next.now) }
{
    let mut walk = Walk::new(alloc, next.len())?;
    for root in 0..next.len() {
        walk.visit(next, root as u16)?;
    }
    walk.flags(alloc)
}

/// The least vertex on a loop.
pub(crate) fn least_on_loop(alloc: Global, next: &[Items<u16>]) -> Result<Option<u16>, AllocError>
    requires few { length next.now < 65536 }
    requires net { IsNet next.now }
    ensures { IfOk result (λ found. MatchOption found ((v : ℕ) → ¬ Leads (StepsTo next.now) v v) (IsLeastSuch (λ v. Leads (StepsTo next.now) v v))) }
{
    let loops = loops(alloc, next)?;
    Ok(first_marked(loops.as_slice()))
}

/// The first number that is marked.
fn first_marked(marks: &[bool]) -> Option<u16>
    requires { length marks.now < 65536 }
    ensures none { IfNone result ((v : ℕ) → slice_index_or marks.now v false ≡ false) }
    ensures marked { IfSome result (λ first. slice_index_or marks.now first false ≡ true) }
    ensures first { IfSome result (λ first. (v : ℕ) → v < first → slice_index_or marks.now v false ≡ false) }
{
    for (number, mark) in marks.iter().enumerate() {
        if *mark {
            return Some(number as u16);
        }
    }
    None
}

/// Of each vertex whether it is the root or can be reached from it.
pub(crate) fn reach(
    alloc: Global,
    next: &[Items<u16>],
    root: u16,
) -> Result<Items<bool>, AllocError>
    requires root { root < length next.now }
    requires net { IsNet next.now }
    ensures { IfOk result (AreReached next.now root) }
{
    let mut walk = Walk::new(alloc, next.len())?;
    walk.visit(next, root)?;
    walk.seen(alloc)
}

impl Walk {
    fn new(alloc: Global, count: usize) -> Result<Walk, AllocError>
        ensures { IfOk result (λ walk. walk ≡ record { visits = replicate count New; path = []; pending = []; knots = [] }) }
    {
        Ok(Walk {
            visits: Items::from_vec(vec![in alloc; Visit::New; count]?),
            path: Items::new(alloc),
            pending: Items::new(alloc),
            knots: Items::new(alloc),
        })
    }

    /// Walks on from a vertex until all that it leads to is done.
    fn visit(&mut self, next: &[Items<u16>], root: u16) -> Result<(), AllocError>
        requires vertex { root < length next.now }
        requires net { IsNet next.now }
        requires rest { IsAtRest next.now self.old }
        ensures rest { OnOk result (IsAtRest next.now self.new) }
        ensures goes { OnOk result (GoOn self.old.visits self.new.visits) }
        ensures done { OnOk result (IsDone self.new.visits root) }
        ensures from { OnOk result (GrowsFrom next.now root self.old.visits self.new.visits) }
    {
        let visit = self.visits.as_slice()[root as usize];
        if let Visit::New = visit {
            self.open(next, root)?;
        }
        while self.go(next)? {}
        Ok(())
    }

    /// Follows the last pending step, or is done with the last knot. At `false` there is none.
    fn go(&mut self, next: &[Items<u16>]) -> Result<bool, AllocError>
        requires net { IsNet next.now }
        requires sound { IsSound next.now self.old }
        ensures sound { OnOk result (IsSound next.now self.new) }
        ensures goes { OnOk result (GoOn self.old.visits self.new.visits) }
        ensures grows { OnOk result (Grows next.now self.old.visits self.new.visits) }
        ensures nearer { IfOk result (λ more. OnTrue more (work_of next.now self.new < work_of next.now self.old)) }
        ensures rest { IfOk result (λ more. OnFalse more (self.new.knots ≡ [])) }
    {
        let Some(knot) = self.knots.as_slice().last() else {
            return Ok(false);
        };
        let knot = *knot;
        if self.pending.len() == knot.step {
            self.close(next, knot);
            return Ok(true);
        }
        self.follow(next, knot)?;
        Ok(true)
    }

    /// Opens the vertex where the last pending step leads; where that is open already before the
    /// last knot, joins the last two knots; else the step is done with.
    fn follow(&mut self, next: &[Items<u16>], knot: Knot) -> Result<(), AllocError>
        requires net { IsNet next.now }
        requires sound { IsSound next.now self.old }
        requires last { (rest : List Knot) × (self.old.knots ≡ rest ++ knot ∷ []) }
        requires some { knot.step < length self.old.pending }
        ensures sound { OnOk result (IsSound next.now self.new) }
        ensures goes { OnOk result (GoOn self.old.visits self.new.visits) }
        ensures grows { OnOk result (Grows next.now self.old.visits self.new.visits) }
        ensures nearer { OnOk result (work_of next.now self.new < work_of next.now self.old) }
    {
        let to = self.pending.as_slice()[self.pending.len() - 1];
        let visit = self.visits.as_slice()[to as usize];
        match visit {
            Visit::New => self.open(next, to)?,
            Visit::Open(at) if at < knot.first => {
                self.knots.pop();
            }
            _ => {
                self.pending.pop();
            }
        }
        Ok(())
    }

    /// A new vertex comes to the path, as a knot of its own.
    fn open(&mut self, next: &[Items<u16>], vertex: u16) -> Result<(), AllocError>
        requires next { vertex < length next.now }
        requires visits { vertex < length self.old.visits }
        ensures { OnOk result (self.new ≡ opened next.now self.old vertex) }
    {
        let knot = Knot {
            first: self.path.len(),
            step: self.pending.len(),
        };
        self.knots.push(knot)?;
        self.visits
            .set(vertex as usize, Visit::Open(self.path.len()));
        self.path.push(vertex)?;
        for to in next[vertex as usize].as_slice() {
            self.pending.push(*to)?;
        }
        Ok(())
    }

    /// The vertices of the last knot are done.
    fn close(&mut self, next: &[Items<u16>], knot: Knot)
        requires first { knot.first < length self.old.path }
        requires sound { IsSound next.now self.old }
        ensures visits { AreSettled self.old.visits (drop knot.first self.old.path) (is_loop_from next.now self.old.path knot.first) self.new.visits }
        ensures path { self.new.path ≡ take knot.first self.old.path }
        ensures pending { self.new.pending ≡ self.old.pending }
        ensures knots { (rest : List Knot) → self.old.knots ≡ rest ++ knot ∷ [] → self.new.knots ≡ rest }
    {
        let vertex = self.path.as_slice()[knot.first];
        let on_loop = self.path.len() > knot.first + 1
            || next[vertex as usize].as_slice().contains(&vertex);
        self.settle(knot.first, on_loop);
        self.knots.pop();
    }

    /// The vertices of the path from a place on are done.
    fn settle(&mut self, first: usize, on_loop: bool)
        requires first { first < length self.old.path }
        requires vertices { (i : ℕ) → i < length self.old.path → slice_index self.old.path i < length self.old.visits }
        ensures visits { AreSettled self.old.visits (drop first self.old.path) on_loop self.new.visits }
        ensures path { self.new.path ≡ take first self.old.path }
        ensures pending { self.new.pending ≡ self.old.pending }
        ensures knots { self.new.knots ≡ self.old.knots }
    {
        while self.path.len() > first {
            if let Some(done) = self.path.pop() {
                self.visits.set(done as usize, Visit::Done(on_loop));
            }
        }
    }

    /// Of each vertex whether it is on a loop.
    fn flags(&self, alloc: Global) -> Result<Items<bool>, AllocError>
        ensures { IfOk result (λ loops. loops ≡ map is_on_loop self.now.visits) }
    {
        let mut flags = Items::new(alloc);
        for visit in self.visits.as_slice() {
            flags.push(match *visit {
                Visit::Done(on_loop) => on_loop,
                _ => false,
            })?;
        }
        Ok(flags)
    }

    /// Of each vertex whether the walk has come to it.
    fn seen(&self, alloc: Global) -> Result<Items<bool>, AllocError>
        ensures { IfOk result (λ seen. seen ≡ map is_seen self.now.visits) }
    {
        let mut seen = Items::new(alloc);
        for visit in self.visits.as_slice() {
            seen.push(match *visit {
                Visit::New => false,
                _ => true,
            })?;
        }
        Ok(seen)
    }
}
