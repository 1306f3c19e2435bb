ghost use Rattle.std.specs.Prelude.{◌≡◌, ◌<◌, IfOk, length};
ghost use Rattle.board_graph.specs.Graph.{count_of, IsGraph};
ghost use Rattle.board_graph.specs.Loops.{above};
ghost use Rattle.board_graph.specs.Sets.{closure, movers};
ghost use Rattle.board_graph.specs.Inside.Above.{marked, AreAbove};
ghost use Rattle.board_graph.specs.Inside.Blocks.{feeds_of, upward, AreLeaders};
ghost use Rattle.board_graph.specs.Inside.Lists.{turned, AreLists};

use crate::blocks::{leaders, led_by};
use crate::graph::Graph;
use crate::lists::{lists, turned};
use crate::walk::reach;
use item_list::Items;
use std::alloc::{AllocError, Global};

impl Graph {
    /// What a rail rests on, by rising numbers: the least set with it in which each rail's block
    /// and supply are. Fails only where memory runs out.
    pub fn closure(&self, alloc: Global, r: u16) -> Result<Items<u16>, AllocError>
        requires graph { IsGraph self.now }
        requires rail { r < count_of self.now }
        ensures { IfOk result (λ set. set ≡ closure self.now r) }
    {
        self.upward(alloc, r, false)
    }

    /// What moves with a rail, by rising numbers: the least set with it in which each rail's block
    /// is, and the supply that it is linked to. Fails only where memory runs out.
    pub fn movers(&self, alloc: Global, r: u16) -> Result<Items<u16>, AllocError>
        requires graph { IsGraph self.now }
        requires rail { r < count_of self.now }
        ensures { IfOk result (λ set. set ≡ movers self.now r) }
    {
        self.upward(alloc, r, true)
    }

    /// The supplies above a rail, by rising numbers: its supply, and with each rail its supply. Fails
    /// only where memory runs out.
    pub fn above(&self, alloc: Global, r: u16) -> Result<Items<u16>, AllocError>
        requires graph { IsGraph self.now }
        requires rail { r < count_of self.now }
        ensures { IfOk result (λ set. set ≡ above self.now r) }
    {
        let met = self.supplies_met(alloc, r)?;
        marked(alloc, met.as_slice())
    }

    /// Of each rail whether it is among the supplies above a rail.
    fn supplies_met(&self, alloc: Global, r: u16) -> Result<Items<bool>, AllocError>
        requires graph { IsGraph self.now }
        requires rail { r < count_of self.now }
        ensures { IfOk result (AreAbove self.now r) }
    {
        let supplies = self.supply.as_slice();
        let mut met = Items::from_vec(vec![in alloc; false; supplies.len()]?);
        let mut next = supplies[r as usize];
        while let Some(supply) = next {
            if met.as_slice()[supply as usize] {
                break;
            }
            met.set(supply as usize, true);
            next = supplies[supply as usize];
        }
        Ok(met)
    }

    /// The least set with a rail in which each rail's block and supply are, or only the supply that
    /// it is linked to.
    fn upward(&self, alloc: Global, r: u16, only_linked: bool) -> Result<Items<u16>, AllocError>
        requires graph { IsGraph self.now }
        requires rail { r < count_of self.now }
        ensures { IfOk result (λ set. set ≡ upward self.now r only_linked) }
    {
        let leaders = leaders(alloc, self.group.as_slice())?;
        let up = self.up(alloc, leaders.as_slice(), only_linked)?;
        let reached = reach(alloc, up.as_slice(), leaders.as_slice()[r as usize])?;
        led_by(alloc, leaders.as_slice(), reached.as_slice())
    }

    /// For each leader those of the blocks that feed its block.
    fn up(
        &self,
        alloc: Global,
        leaders: &[u16],
        only_linked: bool,
    ) -> Result<Vec<Items<u16>>, AllocError>
        requires graph { IsGraph self.now }
        requires leaders { AreLeaders self.now.group leaders.now }
        ensures { IfOk result (λ up. AreLists (count_of self.now) (turned (feeds_of self.now leaders.now only_linked (count_of self.now))) up.items) }
    {
        let feeds = self.feeds(alloc, leaders, only_linked)?;
        let turned = turned(alloc, feeds.as_slice())?;
        lists(alloc, leaders.len(), turned.as_slice())
    }
}

/// The numbers that are marked, by rising numbers.
fn marked(alloc: Global, marks: &[bool]) -> Result<Items<u16>, AllocError>
    requires { length marks.now < 65536 }
    ensures { IfOk result (λ numbers. numbers ≡ marked marks.now (length marks.now)) }
{
    let mut numbers = Items::new(alloc);
    for (number, mark) in marks.iter().enumerate() {
        if *mark {
            numbers.push(number as u16)?;
        }
    }
    Ok(numbers)
}
