// The walk over the frontiers of a tree, from the least on, until enough orders are found.
ghost use Rattle.std.specs.Prelude.{◌≡◌, ◌≤◌, ◌<◌, ℕ, List, ◌∷◌, ◌++◌, false, length, map, remove, reverse, IfOk, OnOk};
ghost use Rattle.pq_tree.specs.Outline.{p_node};
ghost use Rattle.pq_tree.specs.Proper.{outline_of, forest, AreTrees};
ghost use Rattle.order_list.specs.Reading.{Reads};
ghost use Rattle.order_list.specs.Coming.{outlines, coming_trees, trees_within};
ghost use Rattle.order_list.specs.Gains.{Gains, IsReady, from_column};
ghost use Rattle.order_list.specs.Low.{StandLow};
ghost use Rattle.order_list.specs.Ways.{Leads};

use crate::search::{next_of, way_to};
use crate::{NoMemory, Orders};
use pq_tree::{Tree, View};
use std::alloc::Global;

/// Trees that may be read in any order.
#[derive(Clone, Copy)]
pub struct Bag<'a> {
    /// The trees.
    pub trees: &'a [&'a Tree],
}

/// What is read after the columns so far. Each step of the walk keeps the trees that it has
/// opened, and lends them to the next.
#[derive(Clone, Copy)]
pub enum Coming<'a> {
    /// Nothing more.
    Nothing,
    /// These trees in any order, and then the rest.
    InAnyOrder(Bag<'a>, &'a Coming<'a>),
    /// These trees from the first to the last, and then the rest.
    Forwards(&'a [Tree], &'a Coming<'a>),
    /// These trees from the last to the first, and then the rest.
    Backwards(&'a [Tree], &'a Coming<'a>),
}

/// A way down to the leaf with which a tree begins.
#[derive(Clone, Copy)]
pub struct Way<'a> {
    /// The column of the leaf.
    pub column: u32,
    /// The places of children on the way, from the last to the first.
    pub places: &'a [usize],
}

/// Finds the orders that begin with `columns` and go on with what is coming, from the least on, until there are `limit`
/// orders and one more is seen.
#[cycle(walk)]
pub fn read_on<'a>(
    alloc: Global,
    coming: &'a Coming<'a>,
    columns: &mut Vec<u32>,
    limit: u32,
    found: &mut Orders,
) -> Result<(), NoMemory>
    requires trees { AreTrees (forest (trees_within coming.now)) }
    requires low { StandLow (forest (coming_trees coming.now)) }
    requires ready { IsReady (Reads (coming_trees coming.now)) columns.old.items limit found.old }
    ensures columns { OnOk result (columns.new.items ≡ columns.old.items) }
    ensures found { OnOk result (Gains (Reads (coming_trees coming.now))
        columns.old.items limit found.old found.new) }
{
    match coming {
        Coming::Nothing => found.add(columns, limit),
        Coming::InAnyOrder(bag, rest) => {
            if bag.trees.is_empty() {
                read_on(alloc, rest, columns, limit, found)
            } else if bag.trees.len() == 1 {
                read_tree(alloc, bag.trees[0], rest, columns, limit, found)
            } else {
                each_next(alloc, bag.trees, rest, columns, limit, found)
            }
        }
        Coming::Forwards(trees, rest) => match trees.split_first() {
            None => read_on(alloc, rest, columns, limit, found),
            Some((tree, others)) => {
                let rest = Coming::Forwards(others, rest);
                read_tree(alloc, tree, &rest, columns, limit, found)
            }
        },
        Coming::Backwards(trees, rest) => match trees.split_last() {
            None => read_on(alloc, rest, columns, limit, found),
            Some((tree, others)) => {
                let rest = Coming::Backwards(others, rest);
                read_tree(alloc, tree, &rest, columns, limit, found)
            }
        },
    }
}

// The same where the tree comes next, and then the rest. A leaf leaves no choice.
#[cycle(walk)]
fn read_tree<'a>(
    alloc: Global,
    tree: &'a Tree,
    rest: &'a Coming<'a>,
    columns: &mut Vec<u32>,
    limit: u32,
    found: &mut Orders,
) -> Result<(), NoMemory>
    requires trees { AreTrees (forest (outline_of tree.now ∷ trees_within rest.now)) }
    requires low { StandLow (forest (outline_of tree.now ∷ coming_trees rest.now)) }
    requires ready { IsReady (Reads (outline_of tree.now ∷ coming_trees rest.now))
        columns.old.items limit found.old }
    ensures columns { OnOk result (columns.new.items ≡ columns.old.items) }
    ensures found { OnOk result (Gains (Reads (outline_of tree.now ∷ coming_trees rest.now))
        columns.old.items limit found.old found.new) }
{
    let Tree::Leaf(column) = tree else {
        return each_next(alloc, &[tree], &*rest, columns, limit, found);
    };
    columns.push(*column)?;
    read_on(alloc, rest, columns, limit, found)?;
    columns.pop();
    Ok(())
}

// The same where the trees come next, in any order, and then the rest: for each column that can
// come next, from the least on.
#[cycle(walk)]
fn each_next<'a>(
    alloc: Global,
    trees: &'a [&'a Tree],
    rest: &'a Coming<'a>,
    columns: &mut Vec<u32>,
    limit: u32,
    found: &mut Orders,
) -> Result<(), NoMemory>
    requires some { 1 ≤ length trees.now }
    requires trees { AreTrees (forest (outlines trees.now ++ trees_within rest.now)) }
    requires low { StandLow (forest (p_node (forest (outlines trees.now)) ∷ coming_trees rest.now)) }
    requires ready { IsReady (Reads (p_node (forest (outlines trees.now)) ∷ coming_trees rest.now))
        columns.old.items limit found.old }
    ensures columns { OnOk result (columns.new.items ≡ columns.old.items) }
    ensures found { OnOk result
        (Gains (Reads (p_node (forest (outlines trees.now)) ∷ coming_trees rest.now))
        columns.old.items limit found.old found.new) }
{
    let mut from = 0;
    while let Some(next) = next_of(trees, from) {
        columns.push(next.column)?;
        let places = way_to(alloc, trees, next)?;
        let way = Way {
            column: next.column,
            places: &places,
        };
        take(alloc, trees, way, rest, columns, limit, found)?;
        columns.pop();
        if found.more() {
            break;
        }
        from = u64::from(next.column) + 1;
    }
    Ok(())
}

// The same where the trees come next in any order, and begin with the column that was taken last, by the way to it. The
// others need no list of their own where the first is taken.
#[cycle(walk)]
fn take<'a, 'w>(
    alloc: Global,
    trees: &'a [&'a Tree],
    way: Way<'w>,
    rest: &'a Coming<'a>,
    columns: &mut Vec<u32>,
    limit: u32,
    found: &mut Orders,
) -> Result<(), NoMemory>
    requires way { Leads (reverse way.places.now) (p_node (forest (outlines trees.now))) way.column }
    requires trees { AreTrees (forest (outlines trees.now ++ trees_within rest.now)) }
    requires low { StandLow (forest (p_node (forest (outlines trees.now)) ∷ coming_trees rest.now)) }
    requires ready { IsReady
        (from_column way.column (Reads (p_node (forest (outlines trees.now)) ∷ coming_trees rest.now)))
        columns.old.items limit found.old }
    ensures columns { OnOk result (columns.new.items ≡ columns.old.items) }
    ensures found { OnOk result (Gains
        (from_column way.entry.column (Reads (p_node (forest (outlines trees.now)) ∷ coming_trees rest.now)))
        columns.old.items limit found.old found.new) }
{
    let last = way.places.len() - 1;
    let place = way.places[last];
    let below = Way {
        column: way.column,
        places: &way.places[..last],
    };
    if place == 0 {
        let rest = Coming::InAnyOrder(Bag { trees: &trees[1..] }, &*rest);
        open(alloc, trees[0], below, &rest, columns, limit, found)
    } else {
        let others = without(alloc, trees, place)?;
        let rest = Coming::InAnyOrder(Bag { trees: &others }, &*rest);
        open(alloc, trees[place], below, &rest, columns, limit, found)
    }
}

// The same where the tree comes next, and begins with the column that was taken last, by the way to it.
#[cycle(walk)]
fn open<'a, 'w>(
    alloc: Global,
    tree: &'a Tree,
    way: Way<'w>,
    rest: &'a Coming<'a>,
    columns: &mut Vec<u32>,
    limit: u32,
    found: &mut Orders,
) -> Result<(), NoMemory>
    requires way { Leads (reverse way.places.now) (outline_of tree.now) way.column }
    requires trees { AreTrees (forest (outline_of tree.now ∷ trees_within rest.now)) }
    requires low { StandLow (forest (outline_of tree.now ∷ coming_trees rest.now)) }
    requires ready { IsReady (from_column way.column (Reads (outline_of tree.now ∷ coming_trees rest.now)))
        columns.old.items limit found.old }
    ensures columns { OnOk result (columns.new.items ≡ columns.old.items) }
    ensures found { OnOk result
        (Gains (from_column way.entry.column (Reads (outline_of tree.now ∷ coming_trees rest.now)))
        columns.old.items limit found.old found.new) }
{
    match tree.view() {
        View::Leaf(_) => read_on(alloc, rest, columns, limit, found),
        View::P(children) => {
            let trees = lent(alloc, children)?;
            take(alloc, trees.as_slice(), way, &*rest, columns, limit, found)
        }
        View::Q(children) => {
            let end = way.places.len() - 1;
            let below = Way {
                column: way.column,
                places: &way.places[..end],
            };
            let last = children.len() - 1;
            if way.places[end] == 0 {
                let rest = Coming::Forwards(&children[1..], rest);
                open(alloc, &children[0], below, &rest, columns, limit, found)
            } else {
                let rest = Coming::Backwards(&children[..last], rest);
                open(alloc, &children[last], below, &rest, columns, limit, found)
            }
        }
    }
}

// The trees one by one.
fn lent(alloc: Global, trees: &[Tree]) -> Result<Vec<&Tree>, NoMemory>
    ensures { IfOk result (λ all. outlines all.items ≡ map outline_of trees.now) }
{
    let mut all = Vec::with_capacity(alloc, trees.len())?;
    for tree in trees {
        all.push(tree)?;
    }
    Ok(all)
}

// The trees but the one at the place.
fn without<'a>(alloc: Global, trees: &[&'a Tree], place: usize) -> Result<Vec<&'a Tree>, NoMemory>
    requires { place < length trees.now }
    ensures { IfOk result (λ others. others.items ≡ remove trees.now place) }
{
    let mut others = Vec::with_capacity(alloc, trees.len() - 1)?;
    others.extend_from_slice(&trees[..place])?;
    others.extend_from_slice(&trees[place + 1..])?;
    Ok(others)
}
