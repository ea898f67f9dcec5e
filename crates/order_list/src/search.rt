// The least column with which some trees can begin, and the way to it.
ghost use Rattle.std.specs.Prelude.{◌≡◌, ◌≤◌, ◌<◌, [], length, reverse, IfOk};
ghost use Rattle.pq_tree.specs.Outline.{p_node};
ghost use Rattle.pq_tree.specs.Proper.{outline_of, HasArities, HaveArities, forest};
ghost use Rattle.order_list.specs.Reading.{CanBegin, tree_at};
ghost use Rattle.order_list.specs.Coming.{outlines};
ghost use Rattle.order_list.specs.Low.{first_column, StandsLow};
ghost use Rattle.order_list.specs.Next.{IsLeastFrom, IsNextAmong, lower_of, nearer_of};
ghost use Rattle.order_list.specs.Ways.{Leads, IsWay};

use crate::NoMemory;
use pq_tree::{Tree, View};
use std::alloc::Global;

/// A tree of a list by its place, and the column with which it begins.
#[derive(Clone, Copy)]
pub struct Next {
    /// The place of the tree, from 0.
    pub place: usize,
    /// The first column.
    pub column: u32,
}

/// The least column, not below `from`, with which one of the trees can begin, and that tree. 64 bits have room
/// for a bound past each column. The least column of all is found at once.
pub fn next_of(trees: &[&Tree], from: u64) -> Option<Next>
    requires some { 1 ≤ length trees.now }
    requires arities { HaveArities (forest (outlines trees.now)) }
    requires low { StandsLow (p_node (forest (outlines trees.now))) }
    ensures { IsNextAmong (outlines trees.now) (length trees.now) from result }
{
    let column = first_column(trees[0]);
    if from <= u64::from(column) {
        Some(Next { place: 0, column })
    } else {
        next_among(trees, from)
    }
}

// The first column of the tree as it stands.
fn first_column(tree: &Tree) -> u32
    requires { HasArities (outline_of tree.now) }
    ensures { result ≡ first_column (outline_of tree.now) }
{
    match tree.view() {
        View::Leaf(column) => column,
        View::P(children) => first_column(&children[0]),
        View::Q(children) => first_column(&children[0]),
    }
}

// The same as `next_of` of any trees, each of which is looked at.
fn next_among(trees: &[&Tree], from: u64) -> Option<Next>
    requires { HaveArities (forest (outlines trees.now)) }
    ensures { IsNextAmong (outlines trees.now) (length trees.now) from result }
{
    let mut next = None;
    for (place, tree) in trees.iter().enumerate() {
        next = nearer(next, place, next_first(tree, from));
    }
    next
}

/// The way down to the column with which a tree of the list begins: places of children, from the last to the first, and
/// then the place of the tree.
pub fn way_to(alloc: Global, trees: &[&Tree], next: Next) -> Result<Vec<usize>, NoMemory>
    requires arities { HaveArities (forest (outlines trees.now)) }
    requires place { next.place < length trees.now }
    requires begins { CanBegin (tree_at (outlines trees.now) next.place) next.column }
    ensures { IfOk result (λ way. Leads (reverse way.items) (p_node (forest (outlines trees.now))) next.column) }
{
    let mut way = Vec::new(alloc);
    find_way(trees[next.place], next.column, &mut way)?;
    way.push(next.place)?;
    Ok(way)
}

// Whether the tree can begin with the column; the way down to it then.
fn find_way(tree: &Tree, column: u32, way: &mut Vec<usize>) -> Result<bool, NoMemory>
    requires arities { HasArities (outline_of tree.now) }
    requires empty { way.old.items ≡ [] }
    ensures { IfOk result (λ found. IsWay (outline_of tree.now) column found way.new.items) }
{
    match tree.view() {
        View::Leaf(own) => Ok(own == column),
        View::P(children) => {
            for place in 0..children.len() {
                if find_way(&children[place], column, way)? {
                    way.push(place)?;
                    return Ok(true);
                }
            }
            Ok(false)
        }
        View::Q(children) => {
            let last = children.len() - 1;
            if find_way(&children[0], column, way)? {
                way.push(0)?;
                return Ok(true);
            }
            if find_way(&children[last], column, way)? {
                way.push(last)?;
                return Ok(true);
            }
            Ok(false)
        }
    }
}

// The least column, not below `from`, with which the tree can begin.
fn next_first(tree: &Tree, from: u64) -> Option<u32>
    requires { HasArities (outline_of tree.now) }
    ensures { IsLeastFrom (CanBegin (outline_of tree.now)) from result }
{
    match tree.view() {
        View::Leaf(column) => {
            if from <= u64::from(column) {
                Some(column)
            } else {
                None
            }
        }
        View::P(children) => {
            let mut least = None;
            for child in children {
                least = lower(least, next_first(child, from));
            }
            least
        }
        View::Q(children) => {
            let first = next_first(&children[0], from);
            let last = next_first(&children[children.len() - 1], from);
            lower(first, last)
        }
    }
}

// The lower of two columns, where there are two.
fn lower(a: Option<u32>, b: Option<u32>) -> Option<u32>
    ensures { result ≡ lower_of a b }
{
    match (a, b) {
        (Some(x), Some(y)) => Some(x.min(y)),
        (Some(x), None) => Some(x),
        (None, y) => y,
    }
}

// The next column so far, or a lower one at the place.
fn nearer(next: Option<Next>, place: usize, column: Option<u32>) -> Option<Next>
    ensures { result ≡ nearer_of next place column }
{
    let Some(column) = column else {
        return next;
    };
    match next {
        Some(found) => {
            if found.column <= column {
                next
            } else {
                Some(Next { place, column })
            }
        }
        None => Some(Next { place, column }),
    }
}
