ghost use Rattle.std.specs.Prelude.{◌≡◌, ◌+◌, ◌<◌, ◌≤◌, ◌&&◌, ◌||◌, ◌++◌, ◌∷◌, [], ℕ, not, nat_eq, IfOk, IfNone, IfSome, OnOk, length, slice_index, slice_index_or, true, false};
ghost use Rattle.std.specs.Bool.{OnFalse, OnTrue};
ghost use Rattle.std.specs.BTreeSet.{contains};
ghost use Rattle.std.specs.List.{count_by};
ghost use Rattle.std.specs.Ordering.{nat_cmp};
ghost use Rattle.board_graph.specs.Order.{is_taken};
ghost use Rattle.board_graph.specs.Inside.Turns.{is_leader, is_next, waiting, left_in, AreAllTurns, AreFeeds, AreTurns};

use crate::feeds::Feeds;
use item_list::Items;
use std::alloc::{AllocError, Global};
use std::collections::BTreeSet;

/// How far the leaders have come in turn.
pub(crate) struct Turns {
    /// For each leader how many feeds of its block come from blocks that aren't taken.
    pub(crate) waits: Items<usize>,
    /// The leaders that aren't taken and wait for none.
    pub(crate) ready: BTreeSet<u16>,
    pub(crate) taken: Items<u16>,
}

impl Drop for Turns {
    /// Ends all parts, so that an owner's code has one call for it.
    fn drop(self) {
        let Turns {
            waits: _,
            ready: _,
            taken: _,
        } = self;
    }
}

/// The leaders in turn, each the least of those whose feeding blocks are all taken, until none is left
/// of such.
pub(crate) fn all_turns(
    alloc: Global,
    leaders: &[u16],
    feeds: &Feeds,
) -> Result<Items<u16>, AllocError>
    requires few { length leaders.now < 65536 }
    requires feeds { AreFeeds leaders.now feeds.now }
    ensures { IfOk result (AreAllTurns leaders.now feeds.now.pairs) }
{
    let mut turns = Turns::new(alloc, leaders, feeds)?;
    while turns.turn(leaders, feeds)? {}
    Ok(turns.into_taken())
}

impl Turns {
    fn new(alloc: Global, leaders: &[u16], feeds: &Feeds) -> Result<Turns, AllocError>
        requires few { length leaders.now < 65536 }
        requires feeds { AreFeeds leaders.now feeds.now }
        ensures turns { IfOk result (AreTurns leaders.now feeds.now.pairs) }
    {
        let waits = counts(alloc, leaders.len(), feeds.pairs.as_slice())?;
        let ready = first_ready(alloc, leaders, waits.as_slice())?;
        Ok(Turns {
            waits,
            ready,
            taken: Items::new(alloc),
        })
    }

    /// Takes the least leader that is ready. At `false` there is none.
    fn turn(&mut self, leaders: &[u16], feeds: &Feeds) -> Result<bool, AllocError>
        requires feeds { AreFeeds leaders.now feeds.now }
        requires turns { AreTurns leaders.now feeds.now.pairs self.old }
        ensures turns { OnOk result (AreTurns leaders.now feeds.now.pairs self.new) }
        ensures fewer { IfOk result (λ more. OnTrue more (left_in leaders.now self.new.taken < left_in leaders.now self.old.taken)) }
        ensures none { IfOk result (λ more. OnFalse more ((v : ℕ) → is_next leaders.now feeds.now.pairs self.new.taken v ≡ false)) }
    {
        let Some(leader) = take_least(&mut self.ready) else {
            return Ok(false);
        };
        self.taken.push(leader)?;
        self.release(feeds.down.as_slice()[leader as usize].as_slice())?;
        Ok(true)
    }

    /// Those that a leader feeds wait for one less each, and are ready where they wait for none.
    fn release(&mut self, fed: &[u16]) -> Result<(), AllocError>
        requires { (v : ℕ) → count_by (nat_eq v) fed.now ≤ slice_index self.old.waits v }
        ensures size { OnOk result (length self.new.waits ≡ length self.old.waits) }
        ensures waits { OnOk result ((v : ℕ) → slice_index self.new.waits v + count_by (nat_eq v) fed.now ≡ slice_index self.old.waits v) }
        ensures ready { OnOk result ((v : ℕ) → contains nat_cmp self.new.ready v ≡ (contains nat_cmp self.old.ready v || is_taken fed.now v && nat_eq (slice_index self.new.waits v) 0)) }
        ensures taken { OnOk result (self.new.taken ≡ self.old.taken) }
    {
        for vertex in fed {
            let waits = self.waits.as_slice()[*vertex as usize] - 1;
            self.waits.set(*vertex as usize, waits);
            if waits == 0 {
                self.ready.insert(*vertex)?;
            }
        }
        Ok(())
    }

    fn into_taken(self) -> Items<u16>
        ensures { result ≡ self.taken }
    {
        let Turns {
            waits: _,
            ready: _,
            taken,
        } = self;
        taken
    }
}

/// How many pairs come to each number.
fn counts(alloc: Global, count: usize, pairs: &[(u16, u16)]) -> Result<Items<usize>, AllocError>
    requires { (i : ℕ) → i < length pairs.now → (slice_index_or pairs.now i (0, 0)).1 < count }
    ensures size { IfOk result (λ counts. length counts ≡ count) }
    ensures counts { IfOk result (λ counts. (v : ℕ) → slice_index counts v ≡ waiting pairs.now [] v) }
{
    let mut counts = Items::from_vec(vec![in alloc; 0usize; count]?);
    for pair in pairs {
        let more = counts.as_slice()[pair.1 as usize] + 1;
        counts.set(pair.1 as usize, more);
    }
    Ok(counts)
}

/// The leaders that wait for none.
fn first_ready(alloc: Global, leaders: &[u16], waits: &[usize]) -> Result<BTreeSet<u16>, AllocError>
    requires few { length leaders.now < 65536 }
    requires waits { length waits.now ≡ length leaders.now }
    ensures { IfOk result (λ ready. (v : ℕ) → contains nat_cmp ready v ≡ (is_leader leaders.now v && nat_eq (slice_index waits.now v) 0)) }
{
    let mut ready = BTreeSet::new(alloc);
    for rail in 0..leaders.len() {
        if leaders[rail] as usize == rail && waits[rail] == 0 {
            ready.insert(rail as u16)?;
        }
    }
    Ok(ready)
}

/// Takes out the least.
fn take_least(ready: &mut BTreeSet<u16>) -> Option<u16>
    ensures none { IfNone result ((v : ℕ) → contains nat_cmp ready.old v ≡ false) }
    ensures some { IfSome result (λ least. contains nat_cmp ready.old least ≡ true) }
    ensures least { IfSome result (λ least. (v : ℕ) → contains nat_cmp ready.old v ≡ true → least ≤ v) }
    ensures rest { IfSome result (λ least. (v : ℕ) → contains nat_cmp ready.new v ≡ (not (nat_eq least v) && contains nat_cmp ready.old v)) }
    ensures stays { IfNone result ((v : ℕ) → contains nat_cmp ready.new v ≡ contains nat_cmp ready.old v) }
{
    ready.pop_first()
}
