// Every matrix of at most four columns and at most four rows.
ghost use Rattle.std.specs.Prelude.{◌≡◌, ◌<◌, ◌≤◌, ℕ, List, All, length, IfOk, IsTrue};
ghost use Rattle.column_order.specs.Orders.{Keeps};
ghost use Rattle.pq_tree.specs.Outline.{leaves};
ghost use Rattle.pq_tree.specs.PqTree.{column_count, outline};
ghost use Rattle.row_model.specs.Rows.{IsRow};

use crate::tests::plain::{all_orders, keeps_rows};
use crate::tests::trees::{Listed, every_tree};
use bound_tree::is_complete;
use pair_classes::{Classes, even_classes};
use pq_tree::PqTree;
use row_model::{Matrix, NoMemory};
use std::alloc::Global;
use std::process::Abort;
use std::test::Fail;
use step_count::{Blank, Brand, Ledger, Steps};
use verdict_check::{complete, tree_holds};

// How many trees had every order, and how many lacked one.
#[derive(Clone, Copy, Drop)]
struct Tally {
    whole: u32,
    lacking: u32,
}

impl Tally {
    fn add(&mut self, complete: bool) {
        if complete {
            self.whole = self.whole.saturating_add(1);
        } else {
            self.lacking = self.lacking.saturating_add(1);
        }
    }
}

// The columns at the ones of a number in base two, the lowest digit first.
fn marked_columns(alloc: Global, columns: u32, number: u32) -> Result<Vec<u32>, NoMemory>
    requires { columns ≤ 4 }
    ensures { IfOk result (λ row. IsRow columns row.items) }
{
    let mut row = Vec::new(alloc);
    for before in 0..columns {
        let marked = (number >> before) & 1 == 1;
        if marked {
            row.push(before + 1)?;
        }
    }
    Ok(row)
}

// The matrix of the rows that the numbers mark.
fn matrix_of(alloc: Global, columns: u32, numbers: &[u32]) -> Result<Matrix, NoMemory>
    requires columns { (1 ≤ columns) × (columns ≤ 4) }
    requires few { length numbers.now ≤ 4 }
{
    let mut m = Matrix::new(alloc, columns)?;
    for number in numbers {
        m.push_row(&marked_columns(alloc, columns, *number)?)?;
    }
    Ok(m)
}

fn classes_of<L: Ledger>(
    alloc: Global,
    m: &Matrix,
    steps: &mut Steps<L>,
) -> Result<Classes, NoMemory> {
    even_classes(alloc, m, m.rows(), steps)
}

// Whether each frontier of the tree keeps each row.
fn holds_rows(tree: &PqTree, m: &Matrix) -> bool
    requires { column_count tree.now ≡ m.now.columns }
    ensures { IsTrue result → All (Keeps (leaves (outline tree.now))) m.now.rows }
{
    for before in 0..m.rows() {
        if !tree_holds(tree, m.row(before + 1)) {
            return false;
        }
    }
    true
}

// Whether each valid order is among the frontiers, where both are marked in one list of orders.
fn has_each(frontiers: &[bool], valid: &[bool]) -> bool {
    frontiers
        .iter()
        .zip(valid)
        .all(|(frontier, valid)| *frontier || !*valid)
}

// All orders of some columns, and all trees over them.
#[derive(Drop)]
struct Listing {
    orders: Vec<Vec<u32>>,
    trees: Vec<Listed>,
}

fn listing_of(alloc: Global, columns: u32) -> Result<Listing, Fail>
    requires { (1 ≤ columns) × (columns ≤ 4) }
{
    let orders = all_orders(alloc, columns)?;
    let trees = every_tree(alloc, columns, &orders)?;
    Ok(Listing { orders, trees })
}

// Of each order whether it is valid for the rows.
fn valid_among(alloc: Global, m: &Matrix, orders: &[Vec<u32>]) -> Result<Vec<bool>, NoMemory> {
    let mut valid = Vec::new(alloc);
    for order in orders {
        valid.push(keeps_rows(order, m))?;
    }
    Ok(valid)
}

// Asserts of a tree that the classes tell what the list of orders does, and that the walk along the leaves does too
// where the frontiers keep the rows.
fn agree_on_tree(
    rt: &impl Abort,
    alloc: Global,
    m: &Matrix,
    classes: &Classes,
    valid: &[bool],
    listed: &Listed,
    tally: &mut Tally,
) -> Result<(), Fail> {
    let tree = &listed.tree;
    assert_eq!(rt; classes.columns(), m.columns());
    assert_eq!(rt; tree.columns(), m.columns());
    let found = complete(alloc, tree, classes)?;
    assert_eq!(rt; found, has_each(&listed.frontiers, valid));
    if holds_rows(tree, m) {
        assert_eq!(rt; found, is_complete(alloc, m, tree)?);
        tally.add(found);
    }
    Ok(())
}

// Goes over the trees where there is a valid order. Where there is none, no tree has frontiers that keep the rows.
fn agree_on<L: Ledger>(
    rt: &impl Abort,
    alloc: Global,
    m: &Matrix,
    listing: &Listing,
    tally: &mut Tally,
    steps: &mut Steps<L>,
) -> Result<(), Fail> {
    let valid = valid_among(alloc, m, &listing.orders)?;
    if !valid.contains(&true) {
        return Ok(());
    }
    let classes = classes_of(alloc, m, steps)?;
    for listed in &listing.trees {
        agree_on_tree(rt, alloc, m, &classes, &valid, listed, tally)?;
    }
    Ok(())
}

// Each set of at most four rows over so many columns: four rows, of which some may be the same, and no row.
fn agree_on_sets<L: Ledger>(
    rt: &impl Abort,
    alloc: Global,
    columns: u32,
    listing: &Listing,
    tally: &mut Tally,
    steps: &mut Steps<L>,
) -> Result<(), Fail>
    requires { (1 ≤ columns) × (columns ≤ 4) }
{
    agree_on(
        rt,
        alloc,
        &matrix_of(alloc, columns, &[])?,
        listing,
        tally,
        steps,
    )?;
    let rows = 1u32 << columns;
    for a in 0..rows {
        for b in a..rows {
            for c in b..rows {
                for d in c..rows {
                    let m = matrix_of(alloc, columns, &[a, b, c, d])?;
                    agree_on(rt, alloc, &m, listing, tally, steps)?;
                }
            }
        }
    }
    Ok(())
}

fn agree_on_all<L: Ledger, R: Abort>(rt: &R, alloc: Global, blank: Blank) -> Result<Tally, Fail>
    requires name { blank.name ≡ L.name }
    requires parts { blank.parts ≡ L.parts }
    requires some { 0 < blank.parts }
{
    let mut steps = Steps::<L>::new(blank);
    let mut tally = Tally {
        whole: 0,
        lacking: 0,
    };
    for columns in 1..5 {
        let listing = listing_of(alloc, columns)?;
        agree_on_sets(rt, alloc, columns, &listing, &mut tally, &mut steps)?;
    }
    Ok(tally)
}

// Six of the rows over four columns leave every order: the empty one, those of one column, and that of all. In four
// rows out of these, 126 times, each tree but the 24 texts of one P-node lacks orders: 384.
#[test]
fn every_matrix_of_at_most_four_columns_and_four_rows(rt: HostRuntime) -> Result<(), Fail> {
    let tally = agree_on_all::<Brand, HostRuntime>(&rt, rt.alloc(), Blank::new(1))?;
    assert!(rt; tally.whole > 126 * 24, "{} trees", tally.whole);
    assert!(rt; tally.lacking > 126 * 384, "{} trees", tally.lacking);
    Ok(())
}
