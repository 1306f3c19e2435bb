ghost use Rattle.std.specs.Prelude.{◌≡◌, ◌<◌, IfOk, IfSome, length};
ghost use Rattle.board_graph.specs.Graph.{count_of, IsGraph};
ghost use Rattle.board_graph.specs.Inside.Blocks.{feeder_of, feeds_of, AreFeedsOf, AreRails};

use crate::graph::Graph;
use crate::lists::lists;
use item_list::Items;
use std::alloc::{AllocError, Global};

/// Which blocks feed which: pairs of leaders, and for each leader those that it feeds.
pub(crate) struct Feeds {
    pub(crate) pairs: Items<(u16, u16)>,
    pub(crate) down: Items<Items<u16>>,
}

impl Drop for Feeds {
    /// Ends all parts, so that an owner's code has one call for it.
    fn drop(self) {
        let Feeds { pairs: _, down: _ } = self;
    }
}

impl Graph {
    /// Which blocks feed which, by their leaders.
    pub(crate) fn block_feeds(&self, alloc: Global, leaders: &[u16]) -> Result<Feeds, AllocError>
        requires graph { IsGraph self.now }
        requires leaders { AreRails (count_of self.now) leaders.now }
        ensures { IfOk result (AreFeedsOf self.now leaders.now) }
    {
        let pairs = self.feeds(alloc, leaders, false)?;
        let down = lists(alloc, leaders.len(), pairs.as_slice())?;
        Ok(Feeds {
            pairs,
            down: Items::from_vec(down),
        })
    }

    /// Of each rail with a supply, or only of those linked to it, the leaders of the supply and of
    /// the rail itself.
    pub(crate) fn feeds(
        &self,
        alloc: Global,
        leaders: &[u16],
        only_linked: bool,
    ) -> Result<Items<(u16, u16)>, AllocError>
        requires graph { IsGraph self.now }
        requires leaders { length leaders.now ≡ count_of self.now }
        ensures { IfOk result (λ feeds. feeds ≡ feeds_of self.now leaders.now only_linked (count_of self.now)) }
    {
        let mut feeds = Items::new(alloc);
        for rail in 0..leaders.len() {
            if let Some(upper) = self.feeder(rail, only_linked) {
                feeds.push((leaders[upper as usize], leaders[rail]))?;
            }
        }
        Ok(feeds)
    }

    /// The supply of a rail, or only one that it is linked to.
    fn feeder(&self, rail: usize, only_linked: bool) -> Option<u16>
        requires graph { IsGraph self.now }
        requires rail { rail < count_of self.now }
        ensures feeder { result ≡ feeder_of self.now only_linked rail }
        ensures rail { IfSome result (λ upper. upper < count_of self.now) }
    {
        if only_linked && !self.link.as_slice()[rail] {
            return None;
        }
        self.supply.as_slice()[rail]
    }
}
