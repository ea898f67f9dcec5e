// Readers of graphs and bipartite graphs.
ghost use Rattle.std.specs.Prelude.{◌≡◌, ◌≤◌, IfOk};
ghost use Rattle.graph_read.specs.Files.{bigraph, graph};

use crate::graph_readers::{BigraphReader, GraphReader};
use graph_model::{Bigraph, Graph, LEFT_BOUND};
use row_model::{NoMemory, Read};
use std::alloc::Global;

/// Reads a bipartite graph from the bytes of a file: a line with the sizes of the two sides, and a line for each edge.
///
/// Blank lines are passed over, and they count for line numbers. The first line has two numbers: the size of the left
/// side, from 1 to `left_limit`, and that of the right side, from 1 to [`MAX_COLUMNS`](row_model::MAX_COLUMNS). Each
/// later line has two numbers, an x and a y of these sides: an edge. An edge that is repeated counts once. A byte order
/// mark at the start is passed over.
///
/// A file that breaks a rule gives its first refusal. The length of the file comes first, then a file without a line,
/// and then line for line from the first on. A line is judged by its words, then by their range, and the first line
/// last by the limits.
///
/// While it reads it keeps the edges in a list of four bytes each. Room for it is asked for by the bytes at hand, one
/// byte for each of them, and doubles where the list needs more: up to eight bytes for each line then, and up to twelve
/// while the list moves to its new room. Where there are at most 256 pairs of an x and a y for each edge in that list,
/// and at most 2^25 in all, a table with a bit for each pair puts them in order, with at most 32 bytes for each line and
/// 4 MiB. The time is linear then in the length of the file and the size of the left side, and also where the edges
/// ascend, first by x and then by y. Else the edges are sorted, in place.
///
/// # Errors
///
/// [`NoMemory`] where memory is refused.
pub fn read_bigraph(alloc: Global, bytes: &[u8], left_limit: u32) -> Result<Read<Bigraph>, NoMemory>
    requires { left_limit ≤ LEFT_BOUND }
    ensures { IfOk result (λ read. read ≡ bigraph left_limit bytes.now) }
{
    BigraphReader::new(left_limit).finish(alloc, bytes)
}

/// Reads a graph from the bytes of a file: a line with the number of vertices, and a line for each edge.
///
/// Blank lines are passed over, and they count for line numbers. The first line has one number, from 1 to
/// [`MAX_COLUMNS`](row_model::MAX_COLUMNS). Each later line has the numbers of two different vertices: an edge. An edge
/// that is repeated, either way round, counts once. A byte order mark at the start is passed over.
///
/// A file that breaks a rule gives its first refusal. The length of the file comes first, then a file without a line,
/// and then line for line from the first on. A line is judged by its words, then by their range; the first line last by
/// the limit, and a later one last as a loop.
///
/// While it reads it keeps each edge both ways in a list of four bytes a way. Room for it is asked for by the bytes at
/// hand, one byte for each of them, and doubles where the list needs more: up to sixteen bytes for each line then, and
/// up to 24 while the list moves to its new room. Where there are at most 256 pairs of vertices for each way in that
/// list, a table with a bit for each pair, of at most 512 KiB, puts the list in order, and the time is linear. Else the
/// list is sorted, in place.
///
/// # Errors
///
/// [`NoMemory`] where memory is refused.
pub fn read_graph(alloc: Global, bytes: &[u8]) -> Result<Read<Graph>, NoMemory>
    ensures { IfOk result (λ read. read ≡ graph bytes.now) }
{
    GraphReader::new().finish(alloc, bytes)
}
