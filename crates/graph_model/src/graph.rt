// A graph by the neighbours of its vertices.
ghost use Rattle.std.specs.Prelude.{◌≡◌, ◌≢◌, ◌≤◌, ◌-◌, [], Some, replicate, slice_get, IfOk, OnOk, OnErr};
ghost use Rattle.row_model.specs.Rows.{IsRow};
ghost use Rattle.graph_model.specs.Graphs.{GraphValue, has_edge, HasTwoMore, IsGraph};
ghost use Rattle.graph_model.specs.Inside.{graph_of, GraphIsKept};

use crate::lists::{empty_lists, with_edge};
use row_model::{COLUMN_BOUND, Matrix, NoMemory};
use std::alloc::Global;
use std::marker::Model;

/// A graph without loops: 1 to [`COLUMN_BOUND`](row_model::COLUMN_BOUND) vertices, and for each the strictly ascending
/// list of its neighbours.
///
/// The lists lie one after another, so a graph takes eight bytes for each edge and eight for each vertex. Contracts
/// know `IsGraph` of every graph, by [`vertices`](Graph::vertices).
#[derive(Drop)]
pub struct Graph {
    alloc: Global,
    lists: Matrix,
}

impl Model for Graph {
    ghost Value = { GraphValue };

    ghost view = { graph_of };

    ghost invariant = { GraphIsKept };
}

impl Graph {
    /// A graph of so many vertices without an edge.
    ///
    /// # Errors
    ///
    /// [`NoMemory`] where memory is refused.
    pub fn new(alloc: Global, n: u32) -> Result<Self, NoMemory>
        requires { (1 ≤ n) × (n ≤ COLUMN_BOUND) }
        ensures { IfOk result (λ g. g ≡ record { vertices = n; neighbours = replicate n [] }) }
    {
        let lists = empty_lists(alloc, n, n)?;
        Ok(Graph { alloc, lists })
    }

    /// The graph with these lists.
    pub fn of_lists(alloc: Global, lists: Matrix) -> Self
        requires { IsGraph (record { vertices = lists.columns; neighbours = lists.rows }) }
        ensures { result ≡ record { vertices = lists.columns; neighbours = lists.rows } }
    {
        Graph { alloc, lists }
    }

    /// Adds an edge between two vertices; one that is there stays.
    ///
    /// A new edge takes time in proportion to the size of the graph, and until it stands the memory of two graphs more.
    /// The reader of files makes a graph with all its edges at once.
    ///
    /// # Errors
    ///
    /// [`NoMemory`] where memory is refused. The graph is as before then.
    pub fn add_edge(&mut self, u: u32, v: u32) -> Result<(), NoMemory>
        requires u { (1 ≤ u) × (u ≤ self.old.vertices) }
        requires v { (1 ≤ v) × (v ≤ self.old.vertices) }
        requires distinct { u ≢ v }
        ensures vertices { self.new.vertices ≡ self.old.vertices }
        ensures ok { OnOk result (HasTwoMore self.old.neighbours u v self.new.neighbours) }
        ensures err { OnErr result (self.new ≡ self.old) }
    {
        if !self.edge(u, v) {
            let one_way = with_edge(self.alloc, &self.lists, u, v)?;
            self.lists = with_edge(self.alloc, &one_way, v, u)?;
        }
        Ok(())
    }

    /// The number of vertices.
    pub fn vertices(&self) -> u32
        ensures vertices { result ≡ self.now.vertices }
        ensures graph { IsGraph self.now }
    {
        self.lists.columns()
    }

    /// The lists of the neighbours as the rows of a matrix, which has a column for each vertex.
    pub fn lists(&self) -> &Matrix
        ensures { result.now ≡ record { columns = self.now.vertices; rows = self.now.neighbours } }
    {
        &self.lists
    }

    /// Whether there is an edge between two vertices. The search is binary.
    pub fn edge(&self, u: u32, v: u32) -> bool
        requires u { (1 ≤ u) × (u ≤ self.now.vertices) }
        requires v { (1 ≤ v) × (v ≤ self.now.vertices) }
        ensures { result ≡ has_edge self.now.neighbours u v }
    {
        self.lists.has(u, v)
    }

    /// The neighbours of a vertex, strictly ascending.
    pub fn neighbours(&self, v: u32) -> &[u32]
        requires { (1 ≤ v) × (v ≤ self.now.vertices) }
        ensures list { slice_get self.now.neighbours (v - 1) ≡ Some result.now }
        ensures ascending { IsRow self.now.vertices result.now }
    {
        self.lists.row(v)
    }
}
