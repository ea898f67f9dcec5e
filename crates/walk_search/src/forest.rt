// The pairs that the search has reached, each with the way by which it was reached.
ghost use Rattle.std.specs.Prelude.{◌≡◌, ◌<◌, ◌≤◌, ℕ, List, [], length, IfOk, OnOk, MatchOption};
ghost use Rattle.row_model.specs.Graph.{IsPair};
ghost use Rattle.odd_cycle.specs.Numbers.{IsIndexed, number_of};
ghost use Rattle.walk_search.specs.Search.{pair_of_node, Adds, Plants, Reaches, IsForest, IsJoinedFrom, KeepsNodes, HasStepped, ShowsConflict};

use odd_cycle::PairNumbers;
use row_model::{COLUMN_BOUND, Line, NoMemory, Pair, Why};
use std::alloc::Global;

/// A pair that the search has reached. There are fewer than 2^32 pairs, and each takes 24 bytes
/// here and 4 among the numbers.
#[derive(Clone, Copy)]
pub struct Node {
    /// The pair.
    pub pair: Pair,
    /// The index of the node from which it was reached; that of a root is its own.
    pub parent: u32,
    /// The reason that joins the pair to the parent's.
    pub why: Why,
    /// Whether an odd number of steps leads to it from the root.
    pub odd: bool,
}

/// Two joined pairs of one tree that lie both an odd or both an even number of steps from its root.
#[derive(Clone, Copy)]
pub struct Conflict {
    /// The index of the one.
    pub from: u32,
    /// The index of the other.
    pub to: u32,
    /// The reason that joins the two.
    pub why: Why,
}

/// Search trees in the order in which their nodes were reached, with the place of each pair.
pub struct Forest {
    /// The index of each pair's node, counted from 1; 0 where the pair is not reached.
    pub numbers: PairNumbers,
    /// The nodes, tree after tree.
    pub nodes: Vec<Node>,
    /// The index of the root of the last tree.
    pub root: u32,
}

// By hand, so that a place where it is dropped proves one call and does not take its parts apart.
impl Drop for Forest {
    fn drop(self) {
        let Forest {
            numbers: _numbers,
            nodes: _nodes,
            root: _root,
        } = self;
    }
}

impl Forest {
    /// A forest with no tree, and with room for a node for each pair of columns. So it never grows, and takes 28
    /// bytes for each ordered pair.
    pub fn new(alloc: Global, columns: u32) -> Result<Self, NoMemory>
        requires { columns ≤ COLUMN_BOUND }
        ensures { IfOk result (λ forest. (forest.numbers.columns ≡ columns) × (forest.nodes.items ≡ []) × (forest.root ≡ 0)
            × IsIndexed pair_of_node forest.numbers forest.nodes.items) }
    {
        let pairs = columns as usize * columns as usize;
        Ok(Forest {
            numbers: PairNumbers::new(alloc, columns)?,
            nodes: Vec::with_capacity(alloc, pairs)?,
            root: 0,
        })
    }

    /// Adds a node with a new pair.
    pub fn add(&mut self, node: Node) -> Result<(), NoMemory>
        requires indexed { IsIndexed pair_of_node self.old.numbers self.old.nodes.items }
        requires pair { IsPair self.old.numbers.columns node.pair }
        requires fresh { number_of self.old.numbers node.pair ≡ 0 }
        ensures { OnOk result (Adds self.old self.new node) }
    {
        self.nodes.push(node)?;
        self.numbers.set(node.pair, self.nodes.len() as u32);
        Ok(())
    }

    /// Begins a tree, with a new pair at its root.
    pub fn plant(&mut self, pair: Pair) -> Result<(), NoMemory>
        requires indexed { IsIndexed pair_of_node self.old.numbers self.old.nodes.items }
        requires pair { IsPair self.old.numbers.columns pair }
        requires fresh { number_of self.old.numbers pair ≡ 0 }
        ensures { OnOk result (Plants self.old self.new pair) }
    {
        let root = self.nodes.len() as u32;
        self.add(Node {
            pair,
            parent: root,
            why: Why::Flip,
            odd: false,
        })?;
        self.root = root;
        Ok(())
    }

    /// Adds a node, unless its pair is reached already. The answer is the index of the pair's node where that lies an
    /// odd number of steps from the root and the new one would not, or the other way round.
    pub fn reach(&mut self, node: Node) -> Result<Option<u32>, NoMemory>
        requires indexed { IsIndexed pair_of_node self.old.numbers self.old.nodes.items }
        requires pair { IsPair self.old.numbers.columns node.pair }
        ensures { IfOk result (Reaches self.old self.new node) }
    {
        match self.numbers.get(node.pair) {
            0 => {
                self.add(node)?;
                Ok(None)
            }
            number if self.nodes[number as usize - 1].odd == node.odd => Ok(None),
            number => Ok(Some(number - 1)),
        }
    }
    /// Reaches the pair of a line from a node to whose pair the line's reason joins it. The answer is the conflict that
    /// this shows, if it shows one.
    pub fn step(&mut self, from: u32, line: Line) -> Result<Option<Conflict>, NoMemory>
        requires indexed { IsIndexed pair_of_node self.old.numbers self.old.nodes.items }
        requires from { from < length self.old.nodes.items }
        requires pair { IsPair self.old.numbers.columns line.pair }
        ensures kept { OnOk result (KeepsNodes self.old self.new) }
        ensures stepped { (c : ℕ) (rows : List (List ℕ)) → IsForest c rows self.old → self.old.root ≤ from → IsJoinedFrom c rows self.old from line
            → IfOk result (λ found. MatchOption found (HasStepped c rows self.old self.new from line.pair) (ShowsConflict c rows self.new)) }
    {
        let node = Node {
            pair: line.pair,
            parent: from,
            why: line.why,
            odd: !self.nodes[from as usize].odd,
        };
        match self.reach(node)? {
            None => Ok(None),
            Some(to) => Ok(Some(Conflict {
                from,
                to,
                why: line.why,
            })),
        }
    }
}
