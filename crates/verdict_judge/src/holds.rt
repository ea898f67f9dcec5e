//! Whether every frontier of a tree keeps a row, in one walk over the tree.
//!
//! Every frontier keeps a row exactly where no node splits it. A P-node splits a row that has columns of two or more of
//! its children and misses one of its columns. A Q-node splits a row that has columns of two of its children and misses
//! a column of one of the two or of a child between them.

ghost use Rattle.std.specs.Prelude.{◌≡◌, ◌↔◌, ◌<◌, ◌≤◌, ◌+◌, ◌^◌, ◌-◌, ℕ, List, map, Contains, IsTrue};
ghost use Rattle.std.specs.List.Sorted.{IsNonDecreasing};
ghost use Rattle.column_order.specs.Orders.{Keeps};
ghost use Rattle.row_model.specs.Rows.{IsRow};
ghost use Rattle.pq_tree.specs.Outline.{Outline, Forest, IsFrontier, leaf, p_node, q_node, no_tree, tree_and};
ghost use Rattle.pq_tree.specs.Proper.{outline_of, forest};
ghost use Rattle.pq_tree.specs.PqTree.{column_count, outline};
ghost use Rattle.verdict_judge.specs.Holds.{HoldsLaw};
ghost use Rattle.verdict_judge.specs.HoldsWalk.{IsShare, IsSum, SplitLaw, gapped_behind};

use pq_tree::{PqTree, Tree};

/// What a row has of a tree.
#[derive(Clone, Copy)]
struct Share {
    /// The row has a column of the tree.
    meets: bool,
    /// The row misses a column of the tree.
    misses: bool,
    /// A node of the tree splits the row.
    split: bool,
}

/// How the first children of a node stand as a line.
#[derive(Clone, Copy)]
enum LineSoFar {
    /// The row has no column of them.
    Before,
    /// The row has a column of them, and misses none from the first child on of which it has one.
    Whole,
    /// The row has columns of one child or of neighbouring ones, and misses a column from there on.
    Ended,
    /// The row has columns of two children, and misses a column of one of the two or of a child between them.
    Gapped,
}

/// What a row has of the first children of a node.
#[derive(Clone, Copy)]
struct Children {
    /// Of how many of them the row has a column.
    meeting: usize,
    /// The row misses a column of them.
    misses: bool,
    /// A node of one of them splits the row.
    split: bool,
    /// How they stand as a line.
    line: LineSoFar,
}

impl LineSoFar {
    /// The line with one child more.
    fn with(self, child: Share) -> LineSoFar
        ensures { (row : List ℕ) (t : Outline) (ts : Forest) →
            IsShare row t child →
            gapped_behind row self (tree_and t ts) ≡ gapped_behind row result ts }
    {
        match (self, child.meets, child.misses) {
            (LineSoFar::Before, false, _) => LineSoFar::Before,
            (LineSoFar::Before, true, false) | (LineSoFar::Whole, _, false) => LineSoFar::Whole,
            (LineSoFar::Before, true, true) | (LineSoFar::Whole, false, true) => LineSoFar::Ended,
            (LineSoFar::Ended, false, _) => LineSoFar::Ended,
            (LineSoFar::Whole, true, true)
            | (LineSoFar::Ended, true, _)
            | (LineSoFar::Gapped, _, _) => LineSoFar::Gapped,
        }
    }

    /// Whether the row has columns of two of the children, and misses a column of one of the two or
    /// of a child between them.
    fn is_gapped(self) -> bool
        ensures { (row : List ℕ) → result ≡ gapped_behind row self no_tree }
    {
        match self {
            LineSoFar::Before | LineSoFar::Whole | LineSoFar::Ended => false,
            LineSoFar::Gapped => true,
        }
    }
}

impl Children {
    /// The children with one more.
    fn with(self, child: Share) -> Children
        requires { self.meeting < 2 ^ 64 - 1 }
        ensures sum { (row : List ℕ) (all rest : Forest) (t : Outline) →
            IsShare row t child →
            IsSum row all (tree_and t rest) self →
            IsSum row all rest result }
        ensures count { result.meeting ≤ self.meeting + 1 }
    {
        Children {
            meeting: self.meeting + usize::from(child.meets),
            misses: self.misses | child.misses,
            split: self.split | child.split,
            line: self.line.with(child),
        }
    }

    /// What the row has of the P-node over these children.
    fn over_p(self) -> Share
        ensures { (row : List ℕ) (ts : Forest) → IsSum row ts no_tree self → IsShare row (p_node ts) result }
    {
        Share {
            meets: self.meeting > 0,
            misses: self.misses,
            split: self.split | ((self.meeting > 1) & self.misses),
        }
    }

    /// What the row has of the Q-node over these children.
    fn over_q(self) -> Share
        ensures { (row : List ℕ) (ts : Forest) → IsSum row ts no_tree self → IsShare row (q_node ts) result }
    {
        Share {
            meets: self.meeting > 0,
            misses: self.misses,
            split: self.split | self.line.is_gapped(),
        }
    }
}

/// Whether every frontier of the tree keeps the row: in none of them a column that the row misses
/// stands between two that it has.
///
/// The row is strictly ascending and within the tree's columns. Each node is looked at once, each leaf by a binary
/// search of the row, and no memory is taken.
pub fn tree_holds(tree: &PqTree, row: &[u32]) -> bool
    requires { IsRow (column_count tree.now) row.now }
    ensures { IsTrue result ↔ ((o : List ℕ) → IsFrontier (outline tree.now) o → Keeps o row.now) }
{
    !tree_share(tree.root(), row).split
}

/// What the row has of the tree.
#[cycle(share)]
fn tree_share(tree: &Tree, row: &[u32]) -> Share
    requires { IsNonDecreasing row.now }
    ensures { IsShare row.now (outline_of tree.now) result }
{
    match tree {
        Tree::Leaf(column) => leaf_share(*column, row),
        Tree::P(children) => all_shares(children, row).over_p(),
        Tree::Q(children) => all_shares(children, row).over_q(),
    }
}

/// What the row has of all these children.
#[cycle(share)]
fn all_shares(children: &[Tree], row: &[u32]) -> Children
    requires { IsNonDecreasing row.now }
    ensures { IsSum row.now (forest (map outline_of children.now)) no_tree result }
{
    let mut all = Children {
        meeting: 0,
        misses: false,
        split: false,
        line: LineSoFar::Before,
    };
    for child in children {
        all = all.with(tree_share(child, row));
    }
    all
}

/// What the row has of the leaf of a column.
fn leaf_share(column: u32, row: &[u32]) -> Share
    requires { IsNonDecreasing row.now }
    ensures { IsShare row.now (leaf column) result }
{
    let found = row_has(row, column);
    Share {
        meets: found,
        misses: !found,
        split: false,
    }
}

/// Whether the row has the column.
fn row_has(row: &[u32], column: u32) -> bool
    requires { IsNonDecreasing row.now }
    ensures { IsTrue result ↔ Contains row.now column }
{
    row.binary_search(&column).is_ok()
}

/// The rows that every frontier of a proper tree keeps.
///
/// They are the empty row, the rows that have the columns of one node and no other, and the rows that have those of
/// neighbouring children of one Q-node and no other. They are also the rows that no node splits.
pub fn holds_law()
    ensures stretch { HoldsLaw }
    ensures split { SplitLaw }
{}
