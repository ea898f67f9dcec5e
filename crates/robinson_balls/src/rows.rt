// The matrix of all balls.
ghost use Rattle.std.specs.Prelude.{◌≡◌, ◌≤◌, ◌+◌, ◌++◌, [], length, IfOk, OnOk};
ghost use Rattle.std.specs.List.Sorted.{IsNonDecreasing};
ghost use Rattle.row_model.specs.Rows.{IsRow};
ghost use Rattle.robinson_balls.specs.Balls.{ball, balls_of, balls_round};
ghost use Rattle.robinson_balls.specs.Neighbours.{with_item, with_items};

use crate::neighbours::{Neighbour, ends_ball, list_neighbours};
use graph_model::Distances;
use row_model::{Matrix, NoMemory, ROW_BOUND};
use std::alloc::Global;

// A group of more than so many items is large: a pass over all items is quicker than to put each of it at its place.
const LARGE: usize = 64;

// So is a group of more than one in so many of all items.
const LARGE_PART: usize = 16;

/// The balls of a table of distances (Mirkin and Rodin, 1984), as a matrix whose columns are the items.
///
/// For each item x, from 1, and for each distance s of x from some item, itself included, in rising order and each
/// once, a row has the items at a distance of at most s from x. The valid orders of the rows are the Robinson orders,
/// as [`robinson_law`](crate::robinson_law) says, and which ball is whose says [`balls_law`](crate::balls_law). With n
/// items there are at most n rows for each.
///
/// The items are sorted by distance once for each centre. Each ball is grown from the one before it, or, where many
/// items are at the next distance, made by one pass over all items.
///
/// # Errors
///
/// `NoMemory` where there is no memory for the matrix and the lists that it is made by.
pub fn balls(alloc: Global, d: &Distances) -> Result<Matrix, NoMemory>
    ensures { IfOk result (λ m. m ≡ balls_of d.now) }
{
    let mut balls = Matrix::new(alloc, d.items())?;
    for before in 0..d.items() {
        push_balls(alloc, &mut balls, d, before + 1)?;
    }
    Ok(balls)
}

/// Makes a matrix that of the balls round `x` alone, in rising order of their radii. Centre after centre these are the
/// rows of [`balls`]. The rows that the matrix had are dropped, and their room stays for the balls.
///
/// # Errors
///
/// `NoMemory` where there is no memory for the balls and the lists that they are made by. Nothing is said of the matrix
/// then.
pub fn balls_round(
    alloc: Global,
    matrix: &mut Matrix,
    d: &Distances,
    x: u32,
) -> Result<(), NoMemory>
    requires columns { matrix.old.columns ≡ d.now.items }
    requires centre { (1 ≤ x) × (x ≤ d.now.items) }
    ensures { OnOk result (matrix.new ≡ record { columns = d.now.items; rows = balls_round d.now x }) }
{
    let _items = d.items();
    clear(matrix);
    push_balls(alloc, matrix, d, x)
}

// Drops all rows. Their room stays.
fn clear(matrix: &mut Matrix)
    ensures { matrix.new ≡ record matrix.old { rows = [] } }
{
    for _k in 0..matrix.rows() {
        matrix.pop_row();
    }
}

// Adds the balls round `x`: each is the one before it with the group of items at the next distance.
fn push_balls(alloc: Global, balls: &mut Matrix, d: &Distances, x: u32) -> Result<(), NoMemory>
    requires columns { balls.old.columns ≡ d.now.items }
    requires centre { (1 ≤ x) × (x ≤ d.now.items) }
    requires room { length balls.old.rows + d.now.items ≤ ROW_BOUND }
    ensures { OnOk result (balls.new ≡ record balls.old { rows = balls.old.rows ++ balls_round d.now x }) }
{
    let neighbours = list_neighbours(alloc, d, x)?;
    let mut ball = Vec::with_capacity(alloc, neighbours.len())?;
    let mut first = 0;
    for k in 0..neighbours.len() {
        if ends_ball(&neighbours, k) {
            let group = &neighbours[first..k + 1];
            grow(&mut ball, group, d, x, neighbours[k].distance)?;
            balls.push_row(&ball)?;
            first = k + 1;
        }
    }
    Ok(())
}

// Makes the list the ball round `x` of this radius, of which it lacks at most the group.
fn grow(
    items: &mut Vec<u32>,
    group: &[Neighbour],
    d: &Distances,
    x: u32,
    radius: u64,
) -> Result<(), NoMemory>
    requires centre { (1 ≤ x) × (x ≤ d.now.items) }
    requires row { IsRow d.now.items items.old.items }
    requires lacks { with_items group.now items.old.items ≡ ball d.now x radius }
    ensures { OnOk result (items.new.items ≡ ball d.now x radius) }
{
    if group.len() > LARGE.min(d.items() as usize / LARGE_PART) {
        return make_ball(items, d, x, radius);
    }
    for neighbour in group {
        insert(items, neighbour.item)?;
    }
    Ok(())
}

// Puts a number at its place in a list that does not fall, where the list lacks it.
fn insert(list: &mut Vec<u32>, number: u32) -> Result<(), NoMemory>
    requires { IsNonDecreasing list.old.items }
    ensures { OnOk result (list.new.items ≡ with_item number list.old.items) }
{
    if let Err(place) = list.binary_search(&number) {
        list.insert(place, number)?;
    }
    Ok(())
}

// Makes the list the ball round `x` of this radius, by one pass over all items.
fn make_ball(items: &mut Vec<u32>, d: &Distances, x: u32, radius: u64) -> Result<(), NoMemory>
    requires { (1 ≤ x) × (x ≤ d.now.items) }
    ensures { OnOk result (items.new.items ≡ ball d.now x radius) }
{
    items.clear();
    for before in 0..d.items() {
        if d.at(x, before + 1) <= radius {
            items.push(before + 1)?;
        }
    }
    Ok(())
}
