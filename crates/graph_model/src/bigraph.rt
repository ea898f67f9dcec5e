// A bipartite graph by the lists of its left side.
ghost use Rattle.std.specs.Prelude.{◌≡◌, ◌≤◌, ◌-◌, [], Some, length, replicate, slice_get, IfOk, OnOk, OnErr};
ghost use Rattle.row_model.specs.Rows.{IsRow};
ghost use Rattle.graph_model.specs.Graphs.{BigraphValue, has_edge, HasOneMore, IsBigraph};
ghost use Rattle.graph_model.specs.Inside.{bigraph_of, BigraphIsKept};

use crate::LEFT_BOUND;
use crate::lists::{empty_lists, with_edge};
use row_model::{COLUMN_BOUND, Matrix, NoMemory};
use std::alloc::Global;
use std::marker::Model;

/// A bipartite graph: a left side of 1 to [`LEFT_BOUND`] xs, a right side of 1 to
/// [`COLUMN_BOUND`](row_model::COLUMN_BOUND) ys, and for each x the strictly
/// ascending list of the ys that it has an edge to.
///
/// The lists lie one after another, so a graph takes four bytes for each edge and eight for each x. Contracts know
/// `IsBigraph` of every graph, by [`left`](Bigraph::left).
#[derive(Drop)]
pub struct Bigraph {
    alloc: Global,
    lists: Matrix,
}

impl Model for Bigraph {
    ghost Value = { BigraphValue };

    ghost view = { bigraph_of };

    ghost invariant = { BigraphIsKept };
}

impl Bigraph {
    /// A graph of these sizes without an edge.
    ///
    /// # Errors
    ///
    /// [`NoMemory`] where memory is refused.
    pub fn new(alloc: Global, left: u32, right: u32) -> Result<Self, NoMemory>
        requires left { (1 ≤ left) × (left ≤ LEFT_BOUND) }
        requires right { (1 ≤ right) × (right ≤ COLUMN_BOUND) }
        ensures { IfOk result (λ g. g ≡ record { left = left; right = right; neighbours = replicate left [] }) }
    {
        let lists = empty_lists(alloc, left, right)?;
        Ok(Bigraph { alloc, lists })
    }

    /// The graph with these lists.
    pub fn of_lists(alloc: Global, lists: Matrix) -> Self
        requires { IsBigraph (record { left = length lists.rows; right = lists.columns; neighbours = lists.rows }) }
        ensures { result ≡ record { left = length lists.rows; right = lists.columns; neighbours = lists.rows } }
    {
        Bigraph { alloc, lists }
    }

    /// Adds the edge from `x` to `y`; one that is there stays.
    ///
    /// A new edge takes time in proportion to the size of the graph, and until it stands the memory of one graph more.
    /// The reader of files makes a graph with all its edges at once.
    ///
    /// # Errors
    ///
    /// [`NoMemory`] where memory is refused. The graph is as before then.
    pub fn add_edge(&mut self, x: u32, y: u32) -> Result<(), NoMemory>
        requires x { (1 ≤ x) × (x ≤ self.old.left) }
        requires y { (1 ≤ y) × (y ≤ self.old.right) }
        ensures left { self.new.left ≡ self.old.left }
        ensures right { self.new.right ≡ self.old.right }
        ensures ok { OnOk result (HasOneMore self.old.neighbours x y self.new.neighbours) }
        ensures err { OnErr result (self.new ≡ self.old) }
    {
        if !self.edge(x, y) {
            self.lists = with_edge(self.alloc, &self.lists, x, y)?;
        }
        Ok(())
    }

    /// The number of xs.
    pub fn left(&self) -> u32
        ensures left { result ≡ self.now.left }
        ensures graph { IsBigraph self.now }
    {
        self.lists.rows()
    }

    /// The number of ys.
    pub fn right(&self) -> u32
        ensures right { result ≡ self.now.right }
        ensures range { (1 ≤ result) × (result ≤ COLUMN_BOUND) }
    {
        self.lists.columns()
    }

    /// Whether there is an edge from `x` to `y`. The search is binary.
    pub fn edge(&self, x: u32, y: u32) -> bool
        requires x { (1 ≤ x) × (x ≤ self.now.left) }
        requires y { (1 ≤ y) × (y ≤ self.now.right) }
        ensures { result ≡ has_edge self.now.neighbours x y }
    {
        self.lists.has(x, y)
    }

    /// The lists of the xs as the rows of a matrix, which has a column for each y.
    pub fn lists(&self) -> &Matrix
        ensures { result.now ≡ record { columns = self.now.right; rows = self.now.neighbours } }
    {
        &self.lists
    }

    /// The ys that `x` has an edge to, strictly ascending.
    pub fn neighbours(&self, x: u32) -> &[u32]
        requires { (1 ≤ x) × (x ≤ self.now.left) }
        ensures list { slice_get self.now.neighbours (x - 1) ≡ Some result.now }
        ensures ascending { IsRow self.now.right result.now }
    {
        self.lists.row(x)
    }
}
