// Readers of graphs and bipartite graphs over a text that comes in pieces.
ghost use Rattle.std.specs.Prelude.{◌≡◌, ◌⊎◌, ◌≤◌, ◌++◌, ℕ, List, drop, length, IsFalse, IfOk};
ghost use Rattle.column_order.specs.Orders.{has};
ghost use Rattle.row_model.specs.declared.code.TheConstants.{LIMIT};
ghost use Rattle.graph_read.specs.declared.headings.Heading.{Heading};
ghost use Rattle.graph_read.specs.Files.{bigraph, graph};

use crate::edges_reader::EdgesReader;
use crate::headings::Heading;
use graph_model::{Bigraph, Graph, LEFT_BOUND};
use row_model::{NoMemory, Read};
use std::alloc::Global;

/// The reader of [`read_bigraph`](crate::read_bigraph) over a text that comes in pieces.
///
/// It keeps the edges that were read, and no line.
#[derive(Drop)]
pub struct BigraphReader {
    edges: EdgesReader,
}

impl BigraphReader {
    ghost use Rattle.graph_read.specs.Pieces.{bigraph_then};

    /// A reader that has read nothing, for a left side of at most `left_limit` vertices.
    pub fn new(left_limit: u32) -> Self
        requires { left_limit ≤ LEFT_BOUND }
        ensures { (bytes : List ℕ) → bigraph_then result bytes ≡ bigraph left_limit bytes }
    {
        BigraphReader {
            edges: EdgesReader::new(Heading::Sides(left_limit)),
        }
    }

    /// Takes bytes at the front of what is left of the text, and tells how many: all whole lines that are there, unless
    /// the text is past the limit of its length, and so refused whatever follows.
    ///
    /// # Errors
    ///
    /// [`NoMemory`] where memory is refused.
    pub fn take(self, alloc: Global, text: &[u8]) -> Result<(Self, usize), NoMemory>
        ensures within { IfOk result (λ taken. taken.1 ≤ length text.now) }
        ensures graph { IfOk result (λ taken. (rest : List ℕ) → bigraph_then taken.0 (drop taken.1 text.now ++ rest) ≡ bigraph_then self (text.now ++ rest)) }
        ensures whole { IfOk result (λ taken. IsFalse (has (drop taken.1 text.now) 10)
            ⊎ ((rest : List ℕ) → bigraph_then self (text.now ++ rest) ≡ Read.Refused (record { code = LIMIT; line = 0 }))) }
    {
        let (edges, taken) = self.edges.take(alloc, text)?;
        Ok((BigraphReader { edges }, taken))
    }

    /// The bipartite graph of the text, or its first refusal, where these bytes are left of it.
    ///
    /// # Errors
    ///
    /// [`NoMemory`] where memory is refused.
    pub fn finish(self, alloc: Global, text: &[u8]) -> Result<Read<Bigraph>, NoMemory>
        ensures { IfOk result (λ read. read ≡ bigraph_then self text.now) }
    {
        match self.edges.finish(alloc, text)? {
            Read::Refused(refusal) => Ok(Read::Refused(refusal)),
            Read::Ok(lists) => Ok(Read::Ok(Bigraph::of_lists(alloc, lists))),
        }
    }
}

/// The reader of [`read_graph`](crate::read_graph) over a text that comes in pieces.
///
/// It keeps the edges that were read, and no line.
#[derive(Drop)]
pub struct GraphReader {
    edges: EdgesReader,
    ghost vertices: { edges.lines.heading ≡ Heading.Vertices },
}

impl GraphReader {
    ghost use Rattle.graph_read.specs.Pieces.{graph_then};

    /// A reader that has read nothing.
    pub fn new() -> Self
        ensures { (bytes : List ℕ) → graph_then result bytes ≡ graph bytes }
    {
        GraphReader {
            edges: EdgesReader::new(Heading::Vertices),
        }
    }

    /// Takes bytes at the front of what is left of the text, and tells how many: all whole lines that are there, unless
    /// the text is past the limit of its length, and so refused whatever follows.
    ///
    /// # Errors
    ///
    /// [`NoMemory`] where memory is refused.
    pub fn take(self, alloc: Global, text: &[u8]) -> Result<(Self, usize), NoMemory>
        ensures within { IfOk result (λ taken. taken.1 ≤ length text.now) }
        ensures graph { IfOk result (λ taken. (rest : List ℕ) → graph_then taken.0 (drop taken.1 text.now ++ rest) ≡ graph_then self (text.now ++ rest)) }
        ensures whole { IfOk result (λ taken. IsFalse (has (drop taken.1 text.now) 10)
            ⊎ ((rest : List ℕ) → graph_then self (text.now ++ rest) ≡ Read.Refused (record { code = LIMIT; line = 0 }))) }
    {
        let (edges, taken) = self.edges.take(alloc, text)?;
        Ok((GraphReader { edges }, taken))
    }

    /// The graph of the text, or its first refusal, where these bytes are left of it.
    ///
    /// # Errors
    ///
    /// [`NoMemory`] where memory is refused.
    pub fn finish(self, alloc: Global, text: &[u8]) -> Result<Read<Graph>, NoMemory>
        ensures { IfOk result (λ read. read ≡ graph_then self text.now) }
    {
        match self.edges.finish(alloc, text)? {
            Read::Refused(refusal) => Ok(Read::Refused(refusal)),
            Read::Ok(lists) => Ok(Read::Ok(Graph::of_lists(alloc, lists))),
        }
    }
}
