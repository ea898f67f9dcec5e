// The closed walk of odd length that a conflict in a search tree shows.
ghost use Rattle.std.specs.Prelude.{◌≡◌, ◌<◌, ◌≤◌, ◌++◌, ℕ, Some, List, length, slice_get, IfOk, OnOk};
ghost use Rattle.row_model.specs.declared.graph.Line.{Line};
ghost use Rattle.row_model.specs.Cycles.{IsOddWalk};
ghost use Rattle.walk_search.specs.Search.{IsTree, AreConflictEnds, ShowsConflict};
ghost use Rattle.walk_search.specs.Closing.{IsWay};

use crate::forest::{Conflict, Forest, Node};
use odd_cycle::Walk;
use row_model::{Line, NoMemory};
use std::alloc::Global;

/// The walk from the root of the last tree down to the one node of the conflict, over to the other, and up to the root.
pub fn closed_walk(alloc: Global, forest: &Forest, conflict: Conflict) -> Result<Walk, NoMemory>
    requires tree { IsTree forest.now.root forest.now.nodes.items }
    requires ends { AreConflictEnds forest.now conflict }
    ensures { (c : ℕ) (rows : List (List ℕ)) → ShowsConflict c rows forest.now conflict → IfOk result (IsOddWalk c rows) }
{
    let mut lines = way_down(alloc, forest, conflict.from)?;
    lines.push(Line {
        pair: forest.nodes[conflict.from as usize].pair,
        why: conflict.why,
    })?;
    add_way_up(forest, conflict.to, &mut lines)?;
    Ok(Walk::from_lines(lines))
}

// The lines from the root of the last tree down to a node, without the node's own.
fn way_down(alloc: Global, forest: &Forest, to: u32) -> Result<Vec<Line>, NoMemory>
    requires tree { IsTree forest.now.root forest.now.nodes.items }
    requires node { (forest.now.root ≤ to) × (to < length forest.now.nodes.items) }
    ensures { IfOk result (λ lines. IsWay forest.now forest.now.root to lines.items) }
{
    let mut lines = Vec::new(alloc);
    let mut at = to;
    while at > forest.root {
        let node = node_below_root(forest, at);
        let parent = forest.nodes[node.parent as usize];
        lines.push(Line {
            pair: parent.pair,
            why: node.why,
        })?;
        at = node.parent;
    }
    lines.reverse();
    Ok(lines)
}

// Adds the lines from a node up to the root of the last tree, without the root's own.
fn add_way_up(forest: &Forest, from: u32, lines: &mut Vec<Line>) -> Result<(), NoMemory>
    requires tree { IsTree forest.now.root forest.now.nodes.items }
    requires node { (forest.now.root ≤ from) × (from < length forest.now.nodes.items) }
    ensures { OnOk result ((way : List Line) × (lines.new.items ≡ lines.old.items ++ way) × IsWay forest.now from forest.now.root way) }
{
    let mut at = from;
    while at > forest.root {
        let node = node_below_root(forest, at);
        lines.push(Line {
            pair: node.pair,
            why: node.why,
        })?;
        at = node.parent;
    }
    Ok(())
}

// A node of the last tree that is not its root. Its parent stands before it.
fn node_below_root(forest: &Forest, at: u32) -> Node
    requires tree { IsTree forest.now.root forest.now.nodes.items }
    requires above { (forest.now.root < at) × (at < length forest.now.nodes.items) }
    ensures there { slice_get forest.now.nodes.items at ≡ Some result }
    ensures before { (forest.now.root ≤ result.parent) × (result.parent < at) }
{
    forest.nodes[at as usize]
}
