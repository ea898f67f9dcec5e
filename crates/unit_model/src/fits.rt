// Whether left ends and a length are a unit model of a graph.
ghost use Rattle.std.specs.Prelude.{◌≡◌, ◌≢◌, ◌↔◌, ◌+◌, ◌-◌, ◌≤◌, ◌<◌, ℕ, slice_index, IsTrue, IfSome, length as count_of};
ghost use Rattle.std.specs.List.{count_by};
ghost use Rattle.std.specs.List.Sorted.{IsNonDecreasing, IsPermutation};
ghost use Rattle.column_order.specs.Orders.{has};
ghost use Rattle.row_model.specs.Rows.{IsRow};
ghost use Rattle.unit_model.specs.Models.{IsUnitModel, DifferByAtMost};
ghost use Rattle.unit_model.specs.Fitting.{EndFits, is_near};

use graph_model::Graph;

// The most left ends of which a sorted copy is made.
const TABLE: usize = 2_048;

/// Whether left ends, vertex by vertex, and a length are a unit model of the graph (Roberts, 1969).
///
/// True exactly where the length is at least 1, and the left ends of two distinct vertices differ by at most the length
/// exactly where the vertices are adjacent. It takes no memory, and with n vertices time in proportion to the edges and
/// to n log n. Where more than 2,048 left ends don't ascend, it takes time in proportion to the square of n.
pub fn unit_fits(g: &Graph, lefts: &[u64], length: u64) -> bool
    requires { count_of lefts.now ≡ g.now.vertices }
    ensures { IsTrue result ↔ IsUnitModel g.now length lefts.now }
{
    if length == 0 {
        return false;
    }
    if is_ascending(lefts) {
        return ends_fit(g, lefts, Some(lefts), length);
    }
    if lefts.len() > TABLE {
        return ends_fit(g, lefts, None, length);
    }
    ends_fit_sorted(g, lefts, length)
}

// Whether the left ends ascend, vertex by vertex.
fn is_ascending(lefts: &[u64]) -> bool
    ensures { IsTrue result → IsNonDecreasing lefts.now }
{
    lefts.is_sorted()
}

// Whether the left ends are a unit model, by a sorted copy of them.
fn ends_fit_sorted(g: &Graph, lefts: &[u64], length: u64) -> bool
    requires positive { 1 ≤ length }
    requires count { count_of lefts.now ≡ g.now.vertices }
    requires few { count_of lefts.now ≤ TABLE }
    ensures { IsTrue result ↔ IsUnitModel g.now length lefts.now }
{
    let mut table = [0; TABLE];
    let sorted = &mut table[..lefts.len()];
    sorted.copy_from_slice(lefts);
    sorted.sort_unstable();
    ends_fit(g, lefts, Some(sorted), length)
}

// Whether the left ends are a unit model. They may come sorted besides.
fn ends_fit(g: &Graph, lefts: &[u64], sorted: Option<&[u64]>, length: u64) -> bool
    requires positive { 1 ≤ length }
    requires count { count_of lefts.now ≡ g.now.vertices }
    requires sorted { IfSome sorted (λ s. IsNonDecreasing s.now × IsPermutation lefts.now s.now) }
    ensures { IsTrue result ↔ IsUnitModel g.now length lefts.now }
{
    for before in 0..g.vertices() {
        let at = before as usize;
        let near = near_count(lefts, sorted, lefts[at], length);
        if !end_fits(lefts, near, length, at, g.neighbours(before + 1)) {
            return false;
        }
    }
    true
}

// Whether the left end at a place, of a vertex with these neighbours, fits those at all other places. So many left ends
// are near it, and it is one of them: they fit where the neighbours' are as many as the others, and are all near.
fn end_fits(lefts: &[u64], near: usize, length: u64, at: usize, neighbours: &[u32]) -> bool
    requires at { at < count_of lefts.now }
    requires near { near ≡ count_by (is_near length (slice_index lefts.now at)) lefts.now }
    requires neighbours { IsRow (count_of lefts.now) neighbours.now }
    requires others { IsTrue (has neighbours.now (at + 1)) → ⊥ }
    ensures { IsTrue result ↔ EndFits lefts.now length at neighbours.now }
{
    if near != neighbours.len() + 1 {
        return false;
    }
    let left = lefts[at];
    for neighbour in neighbours {
        if !are_near(left, lefts[*neighbour as usize - 1], length) {
            return false;
        }
    }
    true
}

// How many left ends differ from one by at most the length.
fn near_count(lefts: &[u64], sorted: Option<&[u64]>, left: u64, length: u64) -> usize
    requires { IfSome sorted (λ s. IsNonDecreasing s.now × IsPermutation lefts.now s.now) }
    ensures { result ≡ count_by (is_near length left) lefts.now }
{
    match sorted {
        Some(sorted) => near_among_sorted(sorted, left, length),
        None => near_among(lefts, left, length),
    }
}

// How many of the left ends, which ascend, differ from one by at most the length.
fn near_among_sorted(sorted: &[u64], left: u64, length: u64) -> usize
    requires { IsNonDecreasing sorted.now }
    ensures { result ≡ count_by (is_near length left) sorted.now }
{
    let least = left.saturating_sub(length);
    let most = left.saturating_add(length);
    let before = sorted.partition_point(|end| *end < least);
    let to = sorted.partition_point(|end| *end <= most);
    to - before
}

// How many of the left ends differ from one by at most the length.
fn near_among(lefts: &[u64], left: u64, length: u64) -> usize
    ensures { result ≡ count_by (is_near length left) lefts.now }
{
    let mut near = 0;
    for end in lefts {
        if are_near(left, *end, length) {
            near += 1;
        }
    }
    near
}

// Whether two left ends differ by at most the length.
fn are_near(a: u64, b: u64, length: u64) -> bool
    ensures { IsTrue result ↔ DifferByAtMost length a b }
{
    if a < b {
        b - a <= length
    } else {
        a - b <= length
    }
}
