//! The links of a list whose nodes are known in their order, led over them at once.

ghost use Rattle.std.specs.Prelude.{◌≡◌, ◌+◌, ◌<◌, ◌^◌, length, reverse, OnOk, IfOk};
ghost use Rattle.memtable.specs.Chains.{IsChain, IsLevel, last_or};
ghost use Rattle.memtable.specs.Levels.{AreLevels, AreEnds, AreNumbers, quarter};

use crate::mem_table::LEVELS;
use std::alloc::{AllocError, Global};

/// Holds the links of each level, the last node of each, and the links backwards.
#[derive(Drop)]
pub struct Links {
    pub levels: [Vec<u32>; LEVELS],
    pub ends: [u32; LEVELS],
    pub back: Vec<u32>,
}

/// Links the list of these nodes, in this order. The links have room for no more.
pub fn links_over(alloc: Global, mut nodes: Vec<u32>) -> Result<Links, AllocError>
    requires numbers { AreNumbers (length nodes.items) nodes.items }
    requires few { length nodes.items < 2 ^ 32 }
    ensures many { IfOk result (λ links. (length links.levels ≡ 12) × (length links.ends ≡ 12)) }
    ensures forward { IfOk result (λ links. AreLevels links.levels nodes.items (length nodes.items) (length nodes.items)) }
    ensures ends { IfOk result (λ links. AreEnds links.ends nodes.items) }
    ensures backward { IfOk result (λ links. IsLevel links.back (reverse nodes.items) (length nodes.items) (length nodes.items)) }
{
    let mut levels = [
        Vec::new(alloc),
        Vec::new(alloc),
        Vec::new(alloc),
        Vec::new(alloc),
        Vec::new(alloc),
        Vec::new(alloc),
        Vec::new(alloc),
        Vec::new(alloc),
        Vec::new(alloc),
        Vec::new(alloc),
        Vec::new(alloc),
        Vec::new(alloc),
    ];
    let mut ends = [0; LEVELS];
    link_levels(alloc, &mut levels, &mut ends, &nodes)?;
    nodes.reverse();
    let back = level_over(alloc, &nodes)?;
    Ok(Links { levels, ends, back })
}

// Leads the links of these levels over the nodes, which have their numbers on the lowest of them.
fn link_levels(
    alloc: Global,
    levels: &mut [Vec<u32>],
    ends: &mut [u32],
    nodes: &[u32],
) -> Result<(), AllocError>
    requires ends { length ends.old ≡ length levels.old }
    requires numbers { AreNumbers (length nodes.now) nodes.now }
    requires few { length nodes.now < 2 ^ 32 }
    ensures { OnOk result (AreLevels levels.new nodes.now (length nodes.now) (length nodes.now) × AreEnds ends.new nodes.now) }
{
    if levels.is_empty() {
        return Ok(());
    }
    let upper = quarter_of(alloc, nodes)?;
    link_levels(alloc, &mut levels[1..], &mut ends[1..], &upper)?;
    levels[0] = level_over(alloc, nodes)?;
    ends[0] = last_of(nodes);
    Ok(())
}

// The links of a level of these nodes.
fn level_over(alloc: Global, nodes: &[u32]) -> Result<Vec<u32>, AllocError>
    requires numbers { AreNumbers (length nodes.now) nodes.now }
    requires few { length nodes.now < 2 ^ 32 }
    ensures { IfOk result (λ links. IsLevel links nodes.now (length nodes.now) (length nodes.now)) }
{
    let mut links = Vec::new(alloc);
    links.resize(nodes.len() + 1, 0)?;
    lead(&mut links, nodes);
    Ok(links)
}

// Leads the links from the head over these nodes to the end.
fn lead(links: &mut [u32], nodes: &[u32])
    requires numbers { AreNumbers (length nodes.now) nodes.now }
    requires long { length links.old ≡ length nodes.now + 1 }
    requires few { length nodes.now < 2 ^ 32 }
    ensures { IsChain links.new 0 nodes.now }
{
    let mut before: usize = 0;
    for node in nodes {
        links[before] = *node;
        before = *node as usize;
    }
    links[before] = 0;
}

// The last of the nodes, or 0.
fn last_of(nodes: &[u32]) -> u32
    ensures { result ≡ last_or 0 nodes.now }
{
    match nodes.last() {
        None => 0,
        Some(node) => *node,
    }
}

// The nodes that stand on the next level too, by their numbers there.
fn quarter_of(alloc: Global, nodes: &[u32]) -> Result<Vec<u32>, AllocError>
    ensures { IfOk result (λ upper. upper.items ≡ quarter nodes.now) }
{
    let mut upper = Vec::new(alloc);
    for node in nodes {
        if *node % 4 != 0 {
            continue;
        }
        upper.push(*node / 4)?;
    }
    Ok(upper)
}
