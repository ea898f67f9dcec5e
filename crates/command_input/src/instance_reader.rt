// The instance in the bytes of a file that come in pieces.
ghost use Rattle.std.specs.Prelude.{◌≡◌, ◌⊎◌, ◌≤◌, ℕ, List, ◌++◌, drop, length, is_some, IsFalse, IsOkAnd, IfSome, IfOk};
ghost use Rattle.column_order.specs.Orders.{has};
ghost use Rattle.row_model.specs.declared.TheConstants.{MAX_FILE_BYTES};
ghost use Rattle.row_model.specs.declared.code.TheConstants.{LIMIT};
ghost use Rattle.instance_model.specs.Value.{instance_value};
ghost use Rattle.command_input.specs.Instances.{instance_of, map_read};
ghost use Rattle.command_input.specs.InstancePieces.{instance_with, comes_in_pieces};

use crate::NoMemory;
use crate::instance::map_read;
use graph_read::{BigraphReader, GraphReader};
use instance_model::Instance;
use matrix_read::{DenseReader, RowsReader};
use row_model::{Kind, MAX_COLUMNS, MAX_ROWS, Read};
use std::alloc::Global;

/// The reader of an instance over a file of at most [`MAX_FILE_BYTES`](row_model::MAX_FILE_BYTES) bytes that come in
/// pieces.
#[derive(Drop)]
pub enum InstanceReader {
    /// Of rows of digits.
    Matrix(DenseReader),
    /// Of rows of digits round a circle.
    Circular(DenseReader),
    /// Of rows that name columns.
    Rows(RowsReader),
    /// Of a bipartite graph, whose left side are rows.
    Convex(BigraphReader),
    /// Of a bipartite graph, of which both sides are columns.
    Doubly(BigraphReader),
    /// Of a graph.
    Proper(GraphReader),
}

impl InstanceReader {
    /// A reader for files of this kind that has read nothing. There is none for the kinds whose files are read whole:
    /// `table`, `robinson` and `clones`.
    pub fn new(kind: Kind) -> Option<Self>
        ensures kinds { is_some result ≡ comes_in_pieces kind }
        ensures reads { IfSome result (λ reader. (bytes : List ℕ) → length bytes ≤ MAX_FILE_BYTES
            → instance_with reader bytes ≡ instance_of kind bytes) }
    {
        match kind {
            Kind::Matrix => Some(InstanceReader::Matrix(DenseReader::new())),
            Kind::Circular => Some(InstanceReader::Circular(DenseReader::new())),
            Kind::Rows => Some(InstanceReader::Rows(RowsReader::new())),
            Kind::Convex => Some(InstanceReader::Convex(BigraphReader::new(MAX_ROWS))),
            Kind::Doubly => Some(InstanceReader::Doubly(BigraphReader::new(MAX_COLUMNS))),
            Kind::Proper => Some(InstanceReader::Proper(GraphReader::new())),
            _ => None,
        }
    }

    /// Takes bytes at the front of what is left of the file, and tells how many: all whole lines that are there, unless
    /// the file is past the limit of its length, and so refused whatever follows.
    ///
    /// # Errors
    ///
    /// `NoMemory`.
    pub fn take(self, alloc: Global, text: &[u8]) -> Result<(Self, usize), NoMemory>
        ensures within { IfOk result (λ taken. taken.1 ≤ length text.now) }
        ensures value { IfOk result (λ taken. (rest : List ℕ)
            → instance_with taken.0 (drop taken.1 text.now ++ rest) ≡ instance_with self (text.now ++ rest)) }
        ensures whole { IfOk result (λ taken. IsFalse (has (drop taken.1 text.now) 10)
            ⊎ ((rest : List ℕ) → instance_with self (text.now ++ rest) ≡ Read.Refused (record { code = LIMIT; line = 0 }))) }
    {
        match self {
            Self::Matrix(dense) => taken_as(dense.take(alloc, text), Self::Matrix),
            Self::Circular(dense) => taken_as(dense.take(alloc, text), Self::Circular),
            Self::Rows(rows) => taken_as(rows.take(alloc, text), Self::Rows),
            Self::Convex(graph) => taken_as(graph.take(alloc, text), Self::Convex),
            Self::Doubly(graph) => taken_as(graph.take(alloc, text), Self::Doubly),
            Self::Proper(graph) => taken_as(graph.take(alloc, text), Self::Proper),
        }
    }

    /// The instance of the file, or its first refusal, where these bytes are left of it.
    ///
    /// # Errors
    ///
    /// `NoMemory`.
    pub fn finish(self, alloc: Global, text: &[u8]) -> Result<Read<Instance>, NoMemory>
        ensures { IfOk result (λ made. map_read instance_value made ≡ instance_with self text.now) }
    {
        match self {
            InstanceReader::Matrix(dense) => map_read(dense.finish(alloc, text), |m| {
                Instance::Plain(Kind::Matrix, m)
            }),
            InstanceReader::Circular(dense) => {
                map_read(dense.finish(alloc, text), Instance::Circular)
            }
            InstanceReader::Rows(rows) => {
                map_read(rows.finish(alloc, text), |m| Instance::Plain(Kind::Rows, m))
            }
            InstanceReader::Convex(graph) => map_read(graph.finish(alloc, text), Instance::Convex),
            InstanceReader::Doubly(graph) => map_read(graph.finish(alloc, text), Instance::Doubly),
            InstanceReader::Proper(graph) => map_read(graph.finish(alloc, text), Instance::Proper),
        }
    }
}

// A reader of one kind of file that took so many bytes, as one of instances, or the refusal of memory.
fn taken_as<R, F: FnOnce(R) -> InstanceReader + Drop>(
    taken: Result<(R, usize), NoMemory>,
    reader: F,
) -> Result<(InstanceReader, usize), NoMemory>
    requires { IfOk taken (λ one. F.pre reader one.0) }
    ensures { IfOk result (λ made. IsOkAnd taken (λ one. F.post reader one.0 made.0 × (made.1 ≡ one.1))) }
{
    match taken {
        Ok((one, count)) => Ok((reader(one), count)),
        Err(refused) => Err(refused),
    }
}
