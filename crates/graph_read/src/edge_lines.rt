// The lines of edges of a text, one after another.
ghost use Rattle.std.specs.Prelude.{◌≡◌, ◌-◌, ◌<◌, ◌≤◌, ◌∷◌, Some, true, false, length, drop, slice_range, IfOk, IfSome, IfNone};
ghost use Rattle.text_lines.specs.Lines.{lines_of, is_blank};
ghost use Rattle.text_lines.specs.Words.{words_of};
ghost use Rattle.graph_read.specs.Numbers.{two_numbers};
ghost use Rattle.graph_read.specs.Edges.{left_of, right_of, edge_named};

use crate::edges::{Edge, Shape, edge_between, edge_in};
use crate::numbers::NumberPair;
use text_lines::{LineSpan, Numeral, PlainPair, line_from, next_word, plain_pair};

/// A line, and the edge that it names.
#[derive(Clone, Copy)]
pub struct EdgeLine {
    /// Where the line stands.
    pub span: LineSpan,
    /// Its edge, or the code of its refusal. A blank line has none.
    pub edge: Option<Result<Edge, u8>>,
}

/// The line that begins at a place before the end of the text, and its edge.
///
/// A line in the plainest form is read at once, any other word for word.
#[inline(always)]
pub fn edge_line(shape: Shape, text: &[u8], at: usize) -> EdgeLine
    requires { at < length text.now }
    ensures lines { lines_of (drop at text.now)
        ≡ slice_range text.now result.span.start result.span.end ∷ lines_of (drop result.span.next text.now) }
    ensures further { (at < result.span.next) × (result.span.next ≤ length text.now) }
    ensures blank { IfNone result.edge (is_blank (slice_range text.now result.span.start result.span.end) ≡ true) }
    ensures filled { IfSome result.edge (λ edge. is_blank (slice_range text.now result.span.start result.span.end) ≡ false) }
    ensures edge { IfSome result.edge (λ edge. edge
        ≡ edge_named shape (two_numbers (words_of (slice_range text.now result.span.start result.span.end)))) }
    ensures from { IfSome result.edge (λ edge. IfOk edge (λ edge. (1 ≤ edge.from) × (edge.from ≤ left_of shape))) }
    ensures to { IfSome result.edge (λ edge. IfOk edge (λ edge. (1 ≤ edge.to) × (edge.to ≤ right_of shape))) }
{
    if let Some(pair) = plain_pair(text, at) {
        return plain_line(shape, at, pair);
    }
    let span = line_from(text, at);
    EdgeLine {
        span,
        edge: edge_on(shape, &text[span.start..span.end]),
    }
}

// The same of a line that is two numbers.
#[inline(always)]
fn plain_line(shape: Shape, at: usize, pair: PlainPair) -> EdgeLine
    requires { at < pair.next }
    ensures span { result.span ≡ record { start = at; end = pair.next - 1; next = pair.next } }
    ensures edge { result.edge ≡ Some (edge_named shape (Some (record { first = Numeral.Value pair.first; second = Numeral.Value pair.second }))) }
    ensures from { IfSome result.edge (λ edge. IfOk edge (λ edge. (1 ≤ edge.from) × (edge.from ≤ left_of shape))) }
    ensures to { IfSome result.edge (λ edge. IfOk edge (λ edge. (1 ≤ edge.to) × (edge.to ≤ right_of shape))) }
{
    let span = LineSpan {
        start: at,
        end: pair.next - 1,
        next: pair.next,
    };
    let numbers = NumberPair {
        first: Numeral::Value(pair.first),
        second: Numeral::Value(pair.second),
    };
    EdgeLine {
        span,
        edge: Some(edge_between(shape, numbers)),
    }
}

// The edge that a line names, or the code of its refusal. A blank line has none.
fn edge_on(shape: Shape, line: &[u8]) -> Option<Result<Edge, u8>>
    ensures blank { IfNone result (is_blank line.now ≡ true) }
    ensures filled { IfSome result (λ edge. is_blank line.now ≡ false) }
    ensures edge { IfSome result (λ edge. edge ≡ edge_named shape (two_numbers (words_of line.now))) }
    ensures from { IfSome result (λ edge. IfOk edge (λ edge. (1 ≤ edge.from) × (edge.from ≤ left_of shape))) }
    ensures to { IfSome result (λ edge. IfOk edge (λ edge. (1 ≤ edge.to) × (edge.to ≤ right_of shape))) }
{
    if is_blank(line) {
        None
    } else {
        Some(edge_in(shape, line))
    }
}

/// Whether a line has no word.
pub fn is_blank(line: &[u8]) -> bool
    ensures { result ≡ is_blank line.now }
{
    next_word(line, 0, line.len()).is_none()
}
