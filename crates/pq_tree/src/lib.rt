//! PQ-trees (Booth and Lueker, 1976) over the columns 1 to c: a tree stands for a set of orders of its columns, its
//! frontiers.
//!
//! A tree is a leaf with a column, a P-node, whose children may be permuted, or a Q-node, whose children may be
//! reversed. It is proper where each P-node has two or more children, each Q-node three or more, and each of 1 to c
//! stands at exactly one leaf.
#![tactic(auto)]

ghost use Rattle.std.specs.Prelude.{◌≡◌, ◌≤◌, ◌≢◌, ◌++◌, ◌↔◌, List, ℕ, IfOk, IfSome, IfNone, OnOk, OnErr};
ghost use Rattle.column_order.specs.Orders.{IsOrder};
ghost use Rattle.plain_text.specs.Pieces.{Extends};
ghost use Rattle.pq_tree.specs.Outline.{Outline, leaves, IsFrontier};
ghost use Rattle.pq_tree.specs.Proper.{outline_of, IsProper, universal};
ghost use Rattle.pq_tree.specs.Propositions.{IsProper-prop};
ghost use Rattle.pq_tree.specs.Equivalent.{IsEquivalent};
ghost use Rattle.pq_tree.specs.Canonical.{IsCanonical};
ghost use Rattle.pq_tree.specs.Text.{tree_text};

mod arrange;
mod arranged;
mod parse;
mod q_children;
mod write;

pub use arranged::Arranged;
use column_order::COLUMN_BOUND;
pub use parse::one_tree;
pub use q_children::QChildren;
pub use std::alloc::AllocError as NoMemory;
use std::alloc::Global;

// Bytes of text for each column: up to five digits, a space, and the two brackets of a node, of which a proper tree has
// fewer than columns.
const ROOM_PER_COLUMN: usize = 8;

/// A leaf with its column, or a node over its children from left to right.
///
/// Any value of the type may be built; `PqTree` has the proper ones.
#[derive(Drop)]
pub enum Tree {
    /// A column, numbered from 1.
    Leaf(u32),
    /// A P-node: its children may be permuted.
    P(Vec<Tree>),
    /// A Q-node: its children may be reversed.
    Q(Vec<Tree>),
}

/// What stands at the top of a tree.
#[derive(Clone, Copy)]
pub enum View<'a> {
    /// The column of a leaf.
    Leaf(u32),
    /// The children of a P-node.
    P(&'a [Tree]),
    /// The children of a Q-node.
    Q(&'a [Tree]),
}

impl Tree {
    ghost use Rattle.pq_tree.specs.View.{Shows, shown_outline};

    /// The leaf of a column. In a proper tree the column is 1 or more.
    pub fn leaf(column: u32) -> Tree
        ensures { result ≡ Tree.Leaf column }
    {
        Self::Leaf(column)
    }

    /// The P-node over these children. In a proper tree it has two or more, and no column stands in two of them.
    pub fn p(children: Vec<Tree>) -> Tree
        ensures { result ≡ Tree.P children }
    {
        Self::P(children)
    }

    /// The Q-node over these children. In a proper tree it has three or more, and no column stands in two of them.
    pub fn q(children: Vec<Tree>) -> Tree
        ensures { result ≡ Tree.Q children }
    {
        Self::Q(children)
    }

    /// The case of the tree, with its column or its children.
    pub fn view(&self) -> View<'_>
        ensures cases { Shows result self.now }
        ensures outline { outline_of self.now ≡ shown_outline result }
    {
        match self {
            Tree::Leaf(column) => View::Leaf(*column),
            Tree::P(children) => View::P(children),
            Tree::Q(children) => View::Q(children),
        }
    }
}

/// A proper tree over the columns 1 to c.
pub struct PqTree {
    columns: u32,
    tree: Tree,
    pub ghost proper: { IsProper columns (outline_of tree) } by { IsProper-prop columns (outline_of tree) },
}

// By hand, so that a place where it is dropped proves one call and does not take its parts apart.
impl Drop for PqTree {
    fn drop(self) {
        let PqTree {
            columns: _columns,
            tree: _tree,
        } = self;
    }
}

impl PqTree {
    ghost use Rattle.pq_tree.specs.PqTree.{column_count, outline};
    ghost use Rattle.pq_tree.specs.Arranged.{outline_in};

    /// The tree over the columns 1 to c.
    pub fn from_tree(c: u32, tree: Tree) -> PqTree
        requires { IsProper c (outline_of tree) }
        ensures columns { column_count result ≡ c }
        ensures tree { outline result ≡ outline_of tree }
    {
        PqTree { columns: c, tree }
    }

    /// The canonical tree over the columns 1 to c that was made from its parts.
    pub fn from_arranged(c: u32, arranged: Arranged) -> PqTree
        requires { IsProper c (outline_in arranged) }
        ensures columns { column_count result ≡ c }
        ensures tree { outline result ≡ outline_in arranged }
        ensures canonical { IsCanonical (outline result) }
    {
        PqTree {
            columns: c,
            tree: arranged.tree,
        }
    }

    /// The tree itself, handed over without a copy.
    pub fn into_tree(self) -> Tree
        ensures { outline_of result ≡ outline self }
    {
        let PqTree { columns: _, tree } = self;
        tree
    }

    /// The tree itself.
    pub fn root(&self) -> &Tree
        ensures { outline_of result.now ≡ outline self.now }
    {
        &self.tree
    }

    /// The number of columns, which are 1 to this number.
    pub fn columns(&self) -> u32
        ensures { result ≡ column_count self.now }
    {
        self.columns
    }

    /// The universal tree, whose frontiers are all orders of 1 to c: the leaf 1 where c is 1, else one P-node over all
    /// columns in rising order.
    ///
    /// # Errors
    ///
    /// `NoMemory` where the allocator has no room for the leaves.
    pub fn universal(alloc: Global, c: u32) -> Result<PqTree, NoMemory>
        requires from { 1 ≤ c }
        requires to { c ≤ COLUMN_BOUND }
        ensures columns { IfOk result (λ t. column_count t ≡ c) }
        ensures tree { IfOk result (λ t. outline t ≡ universal c) }
        ensures frontiers { IfOk result (λ t. (o : List ℕ) → IsFrontier (outline t) o ↔ IsOrder c o) }
    {
        if c == 1 {
            return Ok(PqTree {
                columns: 1,
                tree: Tree::Leaf(1),
            });
        }
        let mut children = Vec::with_capacity(alloc, c as usize)?;
        for i in 0..c {
            children.push(Tree::Leaf(i + 1))?;
        }
        Ok(PqTree {
            columns: c,
            tree: Tree::P(children),
        })
    }

    /// The columns from left to right as the tree stands: one of the tree's frontiers, and so an order of its columns.
    ///
    /// # Errors
    ///
    /// `NoMemory` where the allocator has no room for the columns.
    pub fn frontier(&self, alloc: Global) -> Result<Vec<u32>, NoMemory>
        ensures leaves { IfOk result (λ f. f.items ≡ leaves (outline self.now)) }
        ensures frontier { IfOk result (λ f. IsFrontier (outline self.now) f.items) }
        ensures order { IfOk result (λ f. IsOrder (column_count self.now) f.items) }
    {
        let mut columns = Vec::with_capacity(alloc, self.columns as usize)?;
        write::push_leaves(&self.tree, &mut columns)?;
        Ok(columns)
    }

    /// The canonical tree with the same frontiers: the children of each P-node stand in rising order of their least
    /// columns, and each Q-node stands so that the least column of its first child is below that of its last.
    ///
    /// # Errors
    ///
    /// `NoMemory` where the allocator has no room for the new tree.
    pub fn canonical(&self, alloc: Global) -> Result<PqTree, NoMemory>
        ensures columns { IfOk result (λ t. column_count t ≡ column_count self.now) }
        ensures equivalent { IfOk result (λ t. IsEquivalent (outline self.now) (outline t)) }
        ensures canonical { IfOk result (λ t. IsCanonical (outline t)) }
        ensures frontiers { IfOk result (λ t. (o : List ℕ) → IsFrontier (outline self.now) o ↔ IsFrontier (outline t) o) }
    {
        Self::canonical_of(alloc, self.columns, &self.tree)
    }

    /// The canonical tree with the frontiers of a proper tree over the columns 1 to c, which is only looked at.
    ///
    /// # Errors
    ///
    /// `NoMemory` where the allocator has no room for the new tree.
    pub fn canonical_of(alloc: Global, c: u32, tree: &Tree) -> Result<PqTree, NoMemory>
        requires { IsProper c (outline_of tree.now) }
        ensures columns { IfOk result (λ t. column_count t ≡ c) }
        ensures equivalent { IfOk result (λ t. IsEquivalent (outline_of tree.now) (outline t)) }
        ensures canonical { IfOk result (λ t. IsCanonical (outline t)) }
        ensures frontiers { IfOk result (λ t. (o : List ℕ) → IsFrontier (outline_of tree.now) o ↔ IsFrontier (outline t) o) }
    {
        let arranged = arrange::arranged_tree(alloc, tree)?;
        Ok(PqTree::from_arranged(c, arranged))
    }

    /// Appends the text of the tree: a leaf is its column as a plain number, a P-node its children between `(` and `)`,
    /// a Q-node its children between `[` and `]`, with one space between children.
    ///
    /// Takes no memory but the growth of `text`.
    ///
    /// # Errors
    ///
    /// `NoMemory` where `text` cannot grow. What it held is then still its front.
    pub fn print(&self, text: &mut Vec<u8>) -> Result<(), NoMemory>
        ensures ok { OnOk result (text.new.items ≡ text.old.items ++ tree_text (outline self.now)) }
        ensures err { OnErr result (Extends text.old.items text.new.items) }
    {
        text.reserve(self.columns as usize * ROOM_PER_COLUMN)?;
        write::push_tree(&self.tree, text)
    }

    /// The proper tree over 1 to c of which the bytes are the text; none where they are the text of no such tree.
    ///
    /// One pass over the bytes, with at most c open nodes.
    ///
    /// # Errors
    ///
    /// `NoMemory` where the allocator has no room for the tree, or for a mark at each column.
    pub fn parse(alloc: Global, bytes: &[u8], c: u32) -> Result<Option<PqTree>, NoMemory>
        requires { (1 ≤ c) × (c ≤ COLUMN_BOUND) }
        ensures columns { IfOk result (λ o. IfSome o (λ t. column_count t ≡ c)) }
        ensures found { IfOk result (λ o. IfSome o (λ t. bytes.now ≡ tree_text (outline t))) }
        ensures none { IfOk result (λ o. IfNone o ((t : Outline) → IsProper c t → bytes.now ≢ tree_text t)) }
    {
        match parse::tree_of(alloc, bytes, c)? {
            None => Ok(None),
            Some(tree) => Ok(Some(PqTree::from_tree(c, tree))),
        }
    }
}
