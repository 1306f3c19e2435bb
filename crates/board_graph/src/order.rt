ghost use Rattle.std.specs.Prelude.{◌≡◌, ◌<◌, ◌++◌, ℕ, [], IfOk, MatchOption, OnOk, length, flat_map, slice_index, slice_index_or};
ghost use Rattle.std.specs.List.{enumerate_from, range_with_len};
ghost use Rattle.board_graph.specs.Graph.{count_of, IsGraph, IsOnBlockLoop, IsOnSupplyLoop};
ghost use Rattle.board_graph.specs.Loops.{IsLeastSuch};
ghost use Rattle.board_graph.specs.Order.{IsOrder};
ghost use Rattle.board_graph.specs.Inside.Blocks.{AreFeedsOf, AreLeaders, AreRails};
ghost use Rattle.board_graph.specs.Inside.Lists.{turned, AreLists};

use crate::blocks::leaders;
use crate::fault::LoopFault;
use crate::feeds::Feeds;
use crate::graph::Graph;
use crate::lists::lists;
use crate::turns::all_turns;
use crate::walk::least_on_loop;
use item_list::Items;
use std::alloc::{AllocError, Global};

impl Graph {
    /// The rails in the order in which they come up, block by block, which is the only one. There is
    /// one exactly where no rail is on a loop; else the fault tells the least rail on one.
    /// `Memory` where memory runs out.
    pub fn order(&self, alloc: Global) -> Result<Items<u16>, LoopFault>
        requires { IsGraph self.now }
        ensures order { IfOk result (IsOrder self.now) }
        ensures supply { (r : ℕ) → result ≡ Err (LoopFault.Supply r) → IsLeastSuch (IsOnSupplyLoop self.now) r }
        ensures no_supply { (r s : ℕ) → result ≡ Err (LoopFault.Group r) → ¬ IsOnSupplyLoop self.now s }
        ensures group { (r : ℕ) → result ≡ Err (LoopFault.Group r) → IsLeastSuch (IsOnBlockLoop self.now) r }
    {
        if let Some(rail) = self.supply_loop(alloc)? {
            return Err(LoopFault::Supply(rail));
        }
        let leaders = leaders(alloc, self.group.as_slice())?;
        let feeds = self.block_feeds(alloc, leaders.as_slice())?;
        if let Some(rail) = self.block_loop(alloc, leaders.as_slice(), &feeds)? {
            return Err(LoopFault::Group(rail));
        }
        let order = self.by_turns(alloc, leaders.as_slice(), &feeds)?;
        Ok(order)
    }

    /// The least rail on a loop of supplies.
    fn supply_loop(&self, alloc: Global) -> Result<Option<u16>, AllocError>
        requires { IsGraph self.now }
        ensures { IfOk result (λ found. MatchOption found ((r : ℕ) → ¬ IsOnSupplyLoop self.now r) (IsLeastSuch (IsOnSupplyLoop self.now))) }
    {
        let own = numbers(alloc, self.group.len())?;
        let feeds = self.block_feeds(alloc, own.as_slice())?;
        least_on_loop(alloc, feeds.down.as_slice())
    }

    /// The least rail on a loop of blocks.
    fn block_loop(
        &self,
        alloc: Global,
        leaders: &[u16],
        feeds: &Feeds,
    ) -> Result<Option<u16>, AllocError>
        requires graph { IsGraph self.now }
        requires leaders { AreLeaders self.now.group leaders.now }
        requires feeds { AreFeedsOf self.now leaders.now feeds.now }
        ensures { IfOk result (λ found. MatchOption found ((r : ℕ) → ¬ IsOnBlockLoop self.now r) (IsLeastSuch (IsOnBlockLoop self.now))) }
    {
        least_on_loop(alloc, feeds.down.as_slice())
    }

    /// The rails block by block as their leaders come in turn.
    fn by_turns(
        &self,
        alloc: Global,
        leaders: &[u16],
        feeds: &Feeds,
    ) -> Result<Items<u16>, AllocError>
        requires graph { IsGraph self.now }
        requires leaders { AreLeaders self.now.group leaders.now }
        requires feeds { AreFeedsOf self.now leaders.now feeds.now }
        requires loops { (r : ℕ) → ¬ IsOnBlockLoop self.now r }
        ensures { IfOk result (IsOrder self.now) }
    {
        let taken = all_turns(alloc, leaders, feeds)?;
        let members = members(alloc, leaders)?;
        joined(alloc, members.as_slice(), taken.as_slice())
    }
}

/// The numbers below a count.
fn numbers(alloc: Global, count: usize) -> Result<Items<u16>, AllocError>
    requires { count < 65536 }
    ensures { IfOk result (λ numbers. numbers ≡ range_with_len 0 count) }
{
    let mut numbers = Items::new(alloc);
    for number in 0..count {
        numbers.push(number as u16)?;
    }
    Ok(numbers)
}

/// For each leader the rails of its block.
fn members(alloc: Global, leaders: &[u16]) -> Result<Vec<Items<u16>>, AllocError>
    requires few { length leaders.now < 65536 }
    requires leaders { (r : ℕ) → r < length leaders.now → slice_index leaders.now r < length leaders.now }
    ensures { IfOk result (λ members. AreLists (length leaders.now) (turned (enumerate_from 0 leaders.now)) members.items) }
{
    let mut pairs = Items::new(alloc);
    for (rail, leader) in leaders.iter().enumerate() {
        pairs.push((*leader, rail as u16))?;
    }
    lists(alloc, leaders.len(), pairs.as_slice())
}

/// The lists with these numbers, one after another.
fn joined(alloc: Global, lists: &[Items<u16>], numbers: &[u16]) -> Result<Items<u16>, AllocError>
    requires { (i : ℕ) → i < length numbers.now → slice_index numbers.now i < length lists.now }
    ensures { IfOk result (λ all. all ≡ flat_map (λ k. slice_index_or lists.now k []) numbers.now) }
{
    let mut all = Items::new(alloc);
    for number in numbers {
        append(&mut all, lists[*number as usize].as_slice())?;
    }
    Ok(all)
}

fn append(all: &mut Items<u16>, more: &[u16]) -> Result<(), AllocError>
    ensures { OnOk result (all.new ≡ all.old ++ more.now) }
{
    for item in more {
        all.push(*item)?;
    }
    Ok(())
}
