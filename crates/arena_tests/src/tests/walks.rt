// Random changes of a tree, after each of which it is one tree in which P-nodes and Q-nodes have two children or more.
ghost use Rattle.std.specs.Prelude.{◌<◌};

use super::calls::{detach, give_back, put_under, replace, splice, take, view_of};
use super::pictures::{Seen, children_of, read, seen_at};
use pq_arena::{Arena, NodeId, Shape};
use row_model::NoMemory;
use std::alloc::Global;
use std::process::Abort;
use step_count::{Ledger, Steps};

// Numbers that look random, each made from the one before.
#[derive(Drop)]
struct Dice {
    state: u64,
}

impl Dice {
    fn new(seed: u64) -> Dice {
        Dice { state: seed }
    }

    // A number from 0 on, below `sides` where that is not 0.
    fn roll(&mut self, sides: usize) -> usize
        ensures { 0 < sides → result < sides }
    {
        self.state = (self.state % 2_147_483_648 * 1_103_515_245 + 12_345) % 2_147_483_648;
        if sides == 0 {
            return 0;
        }
        (self.state / 65_536) as usize % sides
    }

    fn flip(&mut self) -> bool {
        self.roll(2) == 1
    }
}

/// Random changes, each drawn from the tree as it is before.
#[derive(Drop)]
pub struct Walk {
    dice: Dice,
    tree: Vec<Seen>,
}

// What becomes of a leaf that can leave its place.
#[derive(Clone, Copy)]
enum Carried {
    // It comes under another node.
    Under,
    // A node over it and another leaf comes to the place of that one.
    Beside,
    // A node over it and the root becomes the root.
    Above,
}

impl Walk {
    pub fn new(alloc: Global, seed: u64) -> Walk {
        Walk {
            dice: Dice::new(seed),
            tree: Vec::new(alloc),
        }
    }

    /// Makes up to eleven changes.
    pub fn change_often<L: Ledger>(
        &mut self,
        rt: &impl Abort,
        alloc: Global,
        arena: &mut Arena,
        steps: &mut Steps<L>,
    ) -> Result<(), NoMemory> {
        for _ in 0..self.dice.roll(12) {
            self.tree = read(rt, alloc, arena, steps)?;
            self.change(rt, arena, steps);
        }
        Ok(())
    }

    // Makes one change, if the tree has a place for it.
    fn change<L: Ledger>(&mut self, rt: &impl Abort, arena: &mut Arena, steps: &mut Steps<L>) {
        match self.dice.roll(8) {
            0 | 1 | 2 => self.gather(rt, arena, steps),
            3 => self.renew_root(rt, arena, steps),
            4 => self.carry(rt, arena, Carried::Under, steps),
            5 => self.carry(rt, arena, Carried::Beside, steps),
            6 => self.carry(rt, arena, Carried::Above, steps),
            _ => self.splice_one(rt, arena, steps),
        }
    }

    // A new node: a Q-node in two cases of three, else a P-node.
    fn take_any<L: Ledger>(
        &mut self,
        rt: &impl Abort,
        arena: &mut Arena,
        steps: &mut Steps<L>,
    ) -> NodeId {
        take(rt, arena, self.dice.roll(3) > 0, steps)
    }

    // Some children of the root, but not all, come under a node of their own.
    fn gather<L: Ledger>(&mut self, rt: &impl Abort, arena: &mut Arena, steps: &mut Steps<L>) {
        let root = seen_at(rt, &self.tree, 0);
        if !matches!(root.shape, Shape::P) || children_of(rt, &self.tree, 0).len() < 3 {
            return;
        }
        let node = self.take_any(rt, arena, steps);
        let children = children_of(rt, &self.tree, 0);
        assert!(rt; 3 <= children.len());
        let mut left = 2 + self.dice.roll(children.len() - 2);
        for i in 0..children.len() {
            if self.dice.roll(children.len() - i) < left {
                left -= 1;
                detach(rt, arena, children[i].node, steps);
                put_under(rt, arena, node, self.dice.roll(2), children[i].node, steps);
            }
        }
        put_under(rt, arena, root.node, 0, node, steps);
    }

    // All children of the root, a P-node, come under another node, which has its place.
    fn renew_root<L: Ledger>(&mut self, rt: &impl Abort, arena: &mut Arena, steps: &mut Steps<L>) {
        let root = seen_at(rt, &self.tree, 0);
        if !matches!(root.shape, Shape::P) {
            return;
        }
        let node = self.take_any(rt, arena, steps);
        for child in children_of(rt, &self.tree, 0) {
            detach(rt, arena, child.node, steps);
            put_under(rt, arena, node, self.dice.roll(2), child.node, steps);
        }
        replace(rt, arena, root.node, node, steps);
        give_back(rt, arena, root.node, steps);
    }

    // One of the leaves whose place can become empty, drawn at random; none where there is none.
    fn free_leaf(&mut self, rt: &impl Abort) -> Option<Seen> {
        let mut found = None;
        for seen in &self.tree {
            if is_free(rt, &self.tree, *seen) && (found.is_none() || self.dice.flip()) {
                found = Some(*seen);
            }
        }
        found
    }

    // A node of which this holds: it is inner, or a leaf, and is neither the leaf nor the node above it.
    fn other_node(&mut self, is_inner: bool, leaf: Seen) -> Option<Seen> {
        let mut found = None;
        for place in 0..self.tree.len() {
            let seen = self.tree[place];
            let is_fit = is_inner != matches!(seen.shape, Shape::Leaf(_));
            let is_other = seen.node.index() != leaf.node.index() && place != leaf.above;
            if is_fit && is_other && (found.is_none() || self.dice.flip()) {
                found = Some(seen);
            }
        }
        found
    }

    // A leaf whose place can become empty comes elsewhere, where there is such a leaf and such a place.
    fn carry<L: Ledger>(
        &mut self,
        rt: &impl Abort,
        arena: &mut Arena,
        to: Carried,
        steps: &mut Steps<L>,
    ) {
        let Some(leaf) = self.free_leaf(rt) else {
            return;
        };
        let other = match to {
            Carried::Under => self.other_node(true, leaf),
            Carried::Beside => self.other_node(false, leaf),
            Carried::Above => Some(seen_at(rt, &self.tree, 0)),
        };
        let Some(other) = other else {
            return;
        };
        let above = match to {
            Carried::Under => other.node,
            Carried::Beside | Carried::Above => {
                let node = self.take_any(rt, arena, steps);
                replace(rt, arena, other.node, node, steps);
                put_under(rt, arena, node, 0, other.node, steps);
                node
            }
        };
        detach(rt, arena, leaf.node, steps);
        put_under(rt, arena, above, self.dice.roll(2), leaf.node, steps);
    }

    // The children of a Q-node below a Q-node come to its place, if there is such a node.
    fn splice_one<L: Ledger>(&mut self, rt: &impl Abort, arena: &mut Arena, steps: &mut Steps<L>) {
        for place in 1..self.tree.len() {
            let seen = self.tree[place];
            let above = seen_at(rt, &self.tree, seen.above);
            if matches!(seen.shape, Shape::Q) && matches!(above.shape, Shape::Q) {
                let view = view_of(rt, arena, seen.node, steps);
                let near = if self.dice.flip() {
                    view.near[0]
                } else {
                    view.near[1]
                };
                splice(rt, arena, seen.node, self.dice.roll(2), near, steps);
                return;
            }
        }
    }
}

// Whether the node is a leaf whose place can become empty: it is one of three children or more of a P-node.
fn is_free(rt: &impl Abort, tree: &Vec<Seen>, seen: Seen) -> bool {
    let above = seen_at(rt, tree, seen.above);
    matches!(seen.shape, Shape::Leaf(_))
        && matches!(above.shape, Shape::P)
        && children_of(rt, tree, seen.above).len() >= 3
}
