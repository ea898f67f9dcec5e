// The lists of neighbours that lines of edges give.
ghost use Rattle.std.specs.Prelude.{◌≡◌, ◌+◌, ◌*◌, ◌<◌, ◌≤◌, ◌++◌, ℕ, List, [], length, drop, IfOk, OnOk};
ghost use Rattle.std.specs.List.{All};
ghost use Rattle.row_model.specs.declared.TheConstants.{MAX_FILE_BYTES};
ghost use Rattle.graph_model.specs.declared.TheConstants.{LEFT_BOUND};
ghost use Rattle.column_order.specs.declared.TheConstants.{COLUMN_BOUND};
ghost use Rattle.text_lines.specs.Lines.{lines_of, filled_lines};
ghost use Rattle.graph_model.specs.Graphs.{IsBigraph, IsGraph};
ghost use Rattle.graph_read.specs.Edges.{left_of, right_of};
ghost use Rattle.graph_read.specs.Placed.{IsPlaced, lists_then, counted_then};

use crate::edge_lines::edge_line;
use crate::edges::Shape;
use crate::ordered::put_in_order;
use crate::places::{lists_at, push_edge};
use graph_model::LEFT_BOUND;
use row_model::{COLUMN_BOUND, MAX_FILE_BYTES, Matrix, NoMemory, Read, Refusal};
use std::alloc::Global;

/// The edges that were read so far, as places of a table. Each is kept in four bytes, and in eight where edges go both
/// ways, in a list whose room doubles as it grows.
#[derive(Drop)]
pub struct EdgePlaces {
    /// Between which vertices they go.
    pub shape: Shape,
    /// Their places.
    pub places: Vec<u32>,
    ghost left: { (1 ≤ left_of shape) × (left_of shape ≤ LEFT_BOUND) },
    ghost right: { (1 ≤ right_of shape) × (right_of shape ≤ COLUMN_BOUND) },
    ghost within: { All (λ place. place < left_of shape * right_of shape) places.items },
    ghost placed: { IsPlaced shape places.items },
}

impl EdgePlaces {
    /// No edge, where so many bytes of lines are at hand.
    ///
    /// # Errors
    ///
    /// [`NoMemory`] where memory is refused.
    pub fn new(alloc: Global, shape: Shape, bytes: usize) -> Result<Self, NoMemory>
        requires left { (1 ≤ left_of shape) × (left_of shape ≤ LEFT_BOUND) }
        requires right { (1 ≤ right_of shape) × (right_of shape ≤ COLUMN_BOUND) }
        ensures shape { IfOk result (λ edges. edges.shape ≡ shape) }
        ensures places { IfOk result (λ edges. edges.places.items ≡ []) }
    {
        // A line takes four bytes or more. An edge that goes both ways takes two places.
        let places = Vec::with_capacity(alloc, bytes / 4)?;
        Ok(EdgePlaces { shape, places })
    }

    /// The lists of these edges.
    ///
    /// The places are put in order first: by a table of bits where the sides have at most 256 pairs for each of them,
    /// and at most 2^25 in all, which takes at most 4 MiB and linear time; else they are sorted, in linear time where
    /// they are in order.
    ///
    /// # Errors
    ///
    /// [`NoMemory`] where memory is refused.
    pub fn lists(self, alloc: Global) -> Result<Matrix, NoMemory>
        ensures lists { IfOk result (λ lists. Read.Ok lists ≡ lists_then self.shape self.places.items []) }
        ensures sides { IfOk result (λ lists.
            IsBigraph (record { left = length lists.rows; right = lists.columns; neighbours = lists.rows })) }
        ensures vertices { self.shape ≡ Shape.Plain (left_of self.shape) → IfOk result (λ lists.
            IsGraph (record { vertices = lists.columns; neighbours = lists.rows })) }
    {
        let EdgePlaces { shape, mut places } = self;
        let left = shape.left();
        let right = shape.right();
        put_in_order(alloc, left as usize * right as usize, &mut places)?;
        lists_at(alloc, left, right, &places)
    }
}

/// Adds the places of the edges of the lines from a place on, where `passed` lines stand before it, and counts the lines;
/// or gives the first refusal.
///
/// # Errors
///
/// [`NoMemory`] where memory is refused.
pub fn push_lines(
    shape: Shape,
    text: &[u8],
    at: usize,
    passed: u32,
    places: &mut Vec<u32>,
) -> Result<Read<u32>, NoMemory>
    requires at { at ≤ length text.now }
    requires few { passed + length text.now ≤ at + MAX_FILE_BYTES }
    requires small { (left_of shape ≤ LEFT_BOUND) × (right_of shape ≤ COLUMN_BOUND) }
    requires within { All (λ place. place < left_of shape * right_of shape) places.old.items }
    requires placed { IsPlaced shape places.old.items }
    ensures lists { IfOk result (λ read. (later : List (List ℕ)) → counted_then shape places.new.items read later
        ≡ lists_then shape places.old.items (filled_lines (passed + 1) (lines_of (drop at text.now) ++ later))) }
    ensures few { IfOk result (λ read. (number : ℕ) → read ≡ Read.Ok number → number + at ≤ passed + length text.now) }
    ensures within { OnOk result (All (λ place. place < left_of shape * right_of shape) places.new.items) }
    ensures placed { OnOk result (IsPlaced shape places.new.items) }
{
    let mut number = passed;
    let mut place = at;
    while place < text.len() {
        let line = edge_line(shape, text, place);
        number += 1;
        place = line.span.next;
        match line.edge {
            None => {}
            Some(Err(code)) => return Ok(Read::Refused(Refusal { code, line: number })),
            Some(Ok(edge)) => push_edge(shape, places, edge)?,
        }
    }
    Ok(Read::Ok(number))
}
