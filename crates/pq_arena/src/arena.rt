// The arena and its calls.
ghost use Rattle.std.specs.Prelude.{◌≡◌, ℕ, ◌+◌, ◌*◌, ◌≤◌, length, Some, ◌∷◌, [], ◌++◌, List, map, reverse, IfOk};
ghost use Rattle.arena_model.specs.ChildLists.{without, oriented, with_replaced, put_on, head_or, last_or, none};
ghost use Rattle.arena_model.specs.Layout.{shape_at, children_at, with_children, IsChildOfP, StandsAlone, IsAtOrAbove, taken, given_back, IsLeaf, IsInUse, IsLayout, IsSpliceAt, spliced, used_count};
ghost use Rattle.arena_model.specs.NamedTree.{outline_below, outline_at, IsOneTree};
ghost use Rattle.pq_tree.specs.PqTree.{column_count, outline};
ghost use Rattle.pq_tree.specs.Proper.{IsProper, universal};
ghost use Rattle.pq_tree.specs.Equivalent.{IsEquivalent};
ghost use Rattle.pq_tree.specs.Canonical.{IsCanonical};
ghost use Rattle.pq_tree.specs.Arranged.{outline_in};
ghost use Rattle.column_order.specs.Orders.{occurs};
ghost use Rattle.column_order.specs.declared.TheConstants.{COLUMN_BOUND};
ghost use Rattle.pq_arena.specs.Looks.{IsBeside, node_named};
ghost use Rattle.arena_model.specs.declared.Shape.{Shape};
ghost use Rattle.arena_model.specs.declared.Shape.TheVariants.{P, Q, Leaf};

mod conditions;
mod look;
mod whole;

use crate::child_lists::{ring_children, run_children};
use crate::node::*;
use crate::ring::*;
use crate::run::*;
use crate::start::bare_nodes;
use crate::swap::swap_nodes;
use arena_model::Shape;
use pq_tree::{Arranged, NoMemory, PqTree, QChildren};
use std::alloc::Global;
use std::marker::Model;
use step_count::{Ledger, Steps};

/// The nodes of a PQ-tree over the columns 1 to c, 2c + 4 in all: those of the tree at the root, those of the trees
/// that stand alone, and spare ones.
#[derive(Drop)]
pub struct Arena {
    nodes: Vec<Node>,
    root: u32,
    spare: u32,
    count: u32,
    columns: u32,
}

impl Model for Arena {
    ghost use Rattle.arena_model.specs.Layout.{Layout};

    ghost Value = { Layout };

    ghost use Rattle.pq_arena.specs.View.{layout_of, IsArenaKept};

    ghost view = { layout_of };

    ghost invariant = { IsArenaKept };
}

impl Arena {
    /// The arena of the universal tree over the columns 1 to c: the leaf 1 where c is 1, else one P-node over all
    /// columns in rising order.
    ///
    /// # Errors
    ///
    /// `NoMemory` where memory is refused. No other call but `to_tree` takes memory.
    pub fn new(alloc: Global, c: u32) -> Result<Arena, NoMemory>
        requires from { 1 ≤ c }
        requires to { c ≤ COLUMN_BOUND }
        ensures columns { IfOk result (λ a. a.columns ≡ c) }
        ensures tree { IfOk result (λ a. outline_at a ≡ universal c) }
        ensures one { IfOk result (λ a. IsOneTree a) }
    {
        if c == 1 {
            return Ok(Arena {
                nodes: bare_nodes(alloc, c, 1)?,
                root: 0,
                spare: 1,
                count: 5,
                columns: c,
            });
        }
        let mut nodes = bare_nodes(alloc, c, c + 1)?;
        for i in 0..c {
            enter_ring(&mut nodes, c, c - 1 - i);
        }
        Ok(Arena {
            nodes,
            root: c,
            spare: c + 1,
            count: c + 3,
            columns: c,
        })
    }

    /// The number of columns, which are 1 to this number.
    pub fn columns(&self) -> u32
        ensures { result ≡ self.now.columns }
    {
        self.columns
    }

    /// The leaf of a column.
    pub fn leaf(&self, column: u32) -> NodeId
        requires from { 1 ≤ column }
        requires to { column ≤ self.now.columns }
        ensures { shape_at self.now result.index ≡ Some (Leaf column) }
    {
        let _columns = self.columns;
        NodeId { index: column - 1 }
    }

    /// The root.
    pub fn root(&self) -> NodeId
        ensures { result.index ≡ self.now.root }
    {
        NodeId { index: self.root }
    }

    /// The number of spare nodes: 2c + 4 less the number of nodes in use.
    pub fn spare(&self) -> u32
        ensures spares { result ≡ length self.now.spares }
        ensures counted { result + used_count self.now.slots ≡ 2 * self.now.columns + 4 }
    {
        self.count
    }

    /// Takes `n`, a child of a P-node, from its place: `n` stands alone, and the other children stay in their order.
    pub fn detach<L: Ledger>(&mut self, n: NodeId, steps: &mut Steps<L>)
        requires { IsChildOfP self.old n.index }
        ensures changed { (p : ℕ) → shape_at self.old p ≡ Some P → 1 ≤ occurs (children_at self.old p) n.index →
            self.new ≡ with_children self.old p (without (children_at self.old p) n.index) }
        ensures ticks { steps.new ≡ steps.old + 1 }
    {
        steps.tick();
        leave_ring(&mut self.nodes, n.index);
    }

    /// Puts `n`, which stands alone and is neither `p` nor above `p`, in front of the children of the P-node `p`.
    pub fn attach<L: Ledger>(&mut self, p: NodeId, n: NodeId, steps: &mut Steps<L>)
        requires p { shape_at self.old p.index ≡ Some P }
        requires n { StandsAlone self.old n.index }
        requires apart { IsAtOrAbove self.old.slots n.index p.index → ⊥ }
        ensures changed { self.new ≡ with_children self.old p.index (n.index ∷ children_at self.old p.index) }
        ensures ticks { steps.new ≡ steps.old + 1 }
    {
        steps.tick();
        enter_ring(&mut self.nodes, p.index, n.index);
    }

    /// Takes the first spare node: it is in use with this shape, P or Q, and stands alone without children.
    pub fn take<L: Ledger>(&mut self, shape: Shape, steps: &mut Steps<L>) -> NodeId
        requires some { 1 ≤ length self.old.spares }
        requires inner { IsLeaf shape → ⊥ }
        ensures taken { self.new ≡ taken self.old result.index shape }
        ensures first { result.index ≡ head_or self.old.spares none }
        ensures alone { StandsAlone self.new result.index }
        ensures ticks { steps.new ≡ steps.old + 1 }
    {
        steps.tick();
        let x = self.spare;
        let next = head_at(&self.nodes, x).first;
        set_head(
            &mut self.nodes,
            x,
            Head {
                kind: kind_of_shape(shape),
                first: NONE,
                last: NONE,
                count: 0,
            },
        );
        self.spare = next;
        self.count -= 1;
        NodeId { index: x }
    }

    /// Gives back `n`, which stands alone without children and is no leaf: it is the first spare node.
    pub fn give_back<L: Ledger>(&mut self, n: NodeId, steps: &mut Steps<L>)
        requires alone { StandsAlone self.old n.index }
        requires empty { children_at self.old n.index ≡ [] }
        requires inner { (s : Shape) → shape_at self.old n.index ≡ Some s → IsLeaf s → ⊥ }
        ensures changed { self.new ≡ given_back self.old n.index }
        ensures ticks { steps.new ≡ steps.old + 1 }
    {
        steps.tick();
        set_head(&mut self.nodes, n.index, spare_before(self.spare));
        self.spare = n.index;
        self.count += 1;
    }

    /// What each arena keeps. A call stands for the clause alone.
    pub fn layout_law(&self)
        ensures { IsLayout self.now }
    {
        let _ = &self.nodes;
    }

    /// Puts the children of `child` in its place, its end `first` (0 for `ends[0]`, 1 for `ends[1]`) towards `near`,
    /// and gives `child` back. It is a Q-node with two children or more and a child of a Q-node; `near` is one of its
    /// neighbours, or none where it is an end child.
    pub fn splice<L: Ledger>(
        &mut self,
        child: NodeId,
        first: usize,
        near: Option<NodeId>,
        steps: &mut Steps<L>,
    )
        requires first { first ≤ 1 }
        requires place { (q : ℕ) × (us : List ℕ) × (vs : List ℕ) × IsSpliceAt self.old q child.index us vs × IsBeside near us vs }
        ensures before { (q : ℕ) (us vs : List ℕ) → IsSpliceAt self.old q child.index us vs → near ≡ node_named (last_or us none) →
            self.new ≡ spliced self.old q child.index (us ++ (oriented first (children_at self.old child.index) ++ vs)) }
        ensures behind { (q : ℕ) (us vs : List ℕ) → IsSpliceAt self.old q child.index us vs → near ≡ node_named (head_or vs none) → 1 ≤ length us + length vs →
            self.new ≡ spliced self.old q child.index (us ++ (reverse (oriented first (children_at self.old child.index)) ++ vs)) }
        ensures ticks { steps.new ≡ steps.old + 1 }
    {
        steps.tick();
        let link = link_at(&self.nodes, child.index);
        let head = head_at(&self.nodes, child.index);
        let n = number(near);
        let far = other_side(link, n);
        let e = fore_of(head, first);
        let g = aft_of(head, first);
        splice_between(&mut self.nodes, child.index, n, far, e, g, link.parent);
        set_head(&mut self.nodes, child.index, spare_before(self.spare));
        self.spare = child.index;
        self.count += 1;
    }

    /// Puts `new`, which stands alone and is neither `old` nor above `old`, in the place of `old`, which then stands
    /// alone. Where `old` is the root, `new` is the root.
    pub fn replace<L: Ledger>(&mut self, old: NodeId, new: NodeId, steps: &mut Steps<L>)
        requires used { IsInUse self.old old.index }
        requires alone { StandsAlone self.old new.index }
        requires apart { IsAtOrAbove self.old.slots new.index old.index → ⊥ }
        ensures child { (p : ℕ) → 1 ≤ occurs (children_at self.old p) old.index →
            self.new ≡ with_children self.old p (with_replaced (children_at self.old p) old.index new.index) }
        ensures root { old.index ≡ self.old.root → self.new ≡ record self.old { root = new.index } }
        ensures top { StandsAlone self.old old.index → self.new ≡ self.old }
        ensures ticks { steps.new ≡ steps.old + 1 }
    {
        steps.tick();
        if old.index == self.root {
            self.root = new.index;
            return;
        }
        swap_nodes(&mut self.nodes, old.index, new.index);
    }

    /// Puts `n`, which stands alone and is neither `q` nor above `q`, at an end of the children of the Q-node `q`: in
    /// front where `end` is 0, behind where it is 1. The former end child holds no parent then, unless it is the other
    /// end too.
    pub fn put_end<L: Ledger>(&mut self, q: NodeId, end: usize, n: NodeId, steps: &mut Steps<L>)
        requires end { end ≤ 1 }
        requires q { shape_at self.old q.index ≡ Some Q }
        requires n { StandsAlone self.old n.index }
        requires apart { IsAtOrAbove self.old.slots n.index q.index → ⊥ }
        ensures changed { self.new ≡ with_children self.old q.index (put_on end n.index (children_at self.old q.index)) }
        ensures ticks { steps.new ≡ steps.old + 1 }
    {
        steps.tick();
        extend_run(&mut self.nodes, q.index, end, n.index);
    }

    /// The canonical tree that is equivalent to the tree at the root, which is a proper PQ-tree over 1 to c.
    ///
    /// # Errors
    ///
    /// `NoMemory` where memory is refused.
    pub fn to_tree(&self, alloc: Global) -> Result<PqTree, NoMemory>
        requires { IsProper self.now.columns (outline_at self.now) }
        ensures columns { IfOk result (λ t. column_count t ≡ self.now.columns) }
        ensures equivalent { IfOk result (λ t. IsEquivalent (outline_at self.now) (outline t)) }
        ensures canonical { IfOk result (λ t. IsCanonical (outline t)) }
    {
        let tree = self.tree_below(alloc, self.root)?;
        Ok(PqTree::from_arranged(self.columns, tree))
    }

    // The tree at the node `n`, in canonical form.
    fn tree_below(&self, alloc: Global, n: u32) -> Result<Arranged, NoMemory>
        requires { IsInUse self.now n }
        ensures { IfOk result (λ a. IsEquivalent (outline_below self.now n) (outline_in a)) }
    {
        match self.shape_of(n) {
            Shape::Leaf(column) => Ok(Arranged::leaf(column)),
            Shape::P => {
                let numbers = self.children_of(alloc, n)?;
                let mut children = Vec::with_capacity(alloc, numbers.len())?;
                for number in &numbers {
                    children.push(self.tree_below(alloc, *number)?)?;
                }
                Arranged::p(alloc, children)
            }
            Shape::Q => {
                let numbers = self.children_of(alloc, n)?;
                let mut children = QChildren::with_capacity(alloc, numbers.len())?;
                for number in &numbers {
                    children.push(self.tree_below(alloc, *number)?)?;
                }
                Ok(children.into_q())
            }
        }
    }

    // The children of the node `n` from left to right.
    fn children_of(&self, alloc: Global, n: u32) -> Result<Vec<u32>, NoMemory>
        requires { IsInUse self.now n }
        ensures { IfOk result (λ v. v.items ≡ children_at self.now n) }
    {
        let head = head_at(&self.nodes, n);
        match self.shape_of(n) {
            Shape::P => ring_children(alloc, &self.nodes, head.first, head.count),
            Shape::Q => run_children(alloc, &self.nodes, head.first),
            Shape::Leaf(_) => Ok(Vec::new(alloc)),
        }
    }

    // The shape of the node `n`.
    fn shape_of(&self, n: u32) -> Shape
        requires { IsInUse self.now n }
        ensures shape { shape_at self.now n ≡ Some result }
        ensures layout { IsLayout self.now }
    {
        match head_at(&self.nodes, n).kind {
            NodeKind::Column(column) => Shape::Leaf(column),
            NodeKind::Permuted => Shape::P,
            NodeKind::Directed => Shape::Q,
            NodeKind::Spare => unreachable!(),
        }
    }
}
