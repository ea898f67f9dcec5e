// Whether intervals are a proper model of a graph.
ghost use Rattle.std.specs.Prelude.{◌≡◌, ◌↔◌, ◌<◌, length, All, IsTrue};
ghost use Rattle.row_model.specs.Rows.{IsRow};
ghost use Rattle.proper_interval.specs.Models.{EndsInOrder, ShareNumber, ContainsInterval, IsProperModel};
ghost use Rattle.proper_interval.specs.Fitting.{AreApart, IsProperPair, FitsLater};

use graph_model::Graph;
use row_model::Interval;

/// Whether a list of intervals, vertex by vertex, is a proper model of the graph (Roberts, 1969).
///
/// True exactly where each left end is at most its right end, the intervals of two distinct vertices share a number
/// exactly where there is an edge between them, and none contains another unless they are equal. It takes no memory,
/// and time in proportion to the square of the number of vertices.
pub fn fits(g: &Graph, list: &[Interval]) -> bool
    requires { length list.now ≡ g.now.vertices }
    ensures { IsTrue result ↔ IsProperModel g.now list.now }
{
    if !are_in_order(list) {
        return false;
    }
    for before in 0..g.vertices() {
        if !fits_later(list, before as usize, g.neighbours(before + 1)) {
            return false;
        }
    }
    true
}

// Whether each left end is at most its right end.
fn are_in_order(list: &[Interval]) -> bool
    ensures { IsTrue result ↔ All EndsInOrder list.now }
{
    list.iter().all(|a| a.left <= a.right)
}

// Whether the interval at a place, of a vertex with these neighbours, fits that of each later vertex: it overlaps those
// of the neighbours, and lies apart from all between them.
fn fits_later(list: &[Interval], at: usize, neighbours: &[u32]) -> bool
    requires at { at < length list.now }
    requires ordered { All EndsInOrder list.now }
    requires neighbours { IsRow (length list.now) neighbours.now }
    ensures { IsTrue result ↔ FitsLater list.now at neighbours.now }
{
    let a = list[at];
    let mut from = at + 1;
    for neighbour in neighbours {
        let end = *neighbour as usize;
        if end > from {
            if !lies_apart(a, &list[from..end - 1]) || !overlap(a, list[end - 1]) {
                return false;
            }
            from = end;
        }
    }
    lies_apart(a, &list[from..])
}

// Whether an interval shares no number with any of the others.
fn lies_apart(a: Interval, others: &[Interval]) -> bool
    ensures { IsTrue result ↔ All (AreApart a) others.now }
{
    for b in others {
        if meet(a, *b) {
            return false;
        }
    }
    true
}

// Whether two intervals share a number, and neither contains the other unless they are equal.
fn overlap(a: Interval, b: Interval) -> bool
    requires a { EndsInOrder a }
    requires b { EndsInOrder b }
    ensures { IsTrue result ↔ (ShareNumber a b × IsProperPair a b) }
{
    meet(a, b) && (a == b || !(contains(a, b) || contains(b, a)))
}

// Whether two intervals share a number. Either ends first as often as not, so this is one comparison and no two.
fn meet(a: Interval, b: Interval) -> bool
    ensures { IsTrue result ↔ ShareNumber a b }
{
    a.left.max(b.left) <= a.right.min(b.right)
}

// Whether the first interval contains the second.
fn contains(a: Interval, b: Interval) -> bool
    requires { EndsInOrder b }
    ensures { IsTrue result ↔ ContainsInterval a b }
{
    a.left <= b.left && b.right <= a.right
}
