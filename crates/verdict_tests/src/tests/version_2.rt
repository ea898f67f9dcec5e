// Verdicts of version 2 on small instances, what version 1 makes of the same trees, and trees by themselves.
ghost use Rattle.std.specs.Prelude.{◌≡◌, ◌<◌};

use super::small::Rows::{self, Free, LongPath, Pair, Path, Triangle};
use super::small::Small::{Circular, Fork, Plain, Spider};
use super::small::{LINE, STAR, TRIANGLE, VERSION_1, VERSION_2, assert_judged};
use pair_classes::{Classes, even_classes};
use pq_tree::PqTree;
use row_model::{Matrix, NoMemory};
use std::alloc::Global;
use std::process::Abort;
use step_count::{Blank, Brand, Ledger, Steps};
use verdict_check::Checked::{self, Invalid, Valid};
use verdict_check::{Reason, complete};

const PAIR: &[u8] = b"kind matrix\ncolumns 3\nanswer yes\ntree ((1 2) 3)\norder 1 2 3\nend\n";

const RING: &[u8] = b"kind circular\ncolumns 3\nanswer yes\ntree [1 2 3]\norder 1 2 3\nend\n";

const RING_PAIR: &[u8] =
    b"kind circular\ncolumns 3\nanswer yes\ntree (1 (2 3))\norder 1 2 3\nend\n";

const FORK_LINE: &[u8] =
    b"kind doubly\ncolumns 1 3\nanswer yes\ntree 1\norder 1\ntree [1 2 3]\norder 1 2 3\nend\n";

const FORK_STAR: &[u8] =
    b"kind doubly\ncolumns 1 3\nanswer yes\ntree 1\norder 1\ntree (1 2 3)\norder 1 2 3\nend\n";

const SPIDER: &[u8] =
    b"kind doubly\ncolumns 3 4\nanswer yes\ntree [1 2 3]\norder 1 2 3\ntree (1 2 3 4)\norder 1 2 3 4\nend\n";

const INCOMPLETE: Checked = Invalid(Reason::Complete(1));

#[test]
fn a_tree_has_to_have_every_order(rt: HostRuntime) -> Result<(), NoMemory> {
    assert_judged(
        &rt,
        rt.alloc(),
        VERSION_2,
        &[
            (Plain(Free), STAR, Valid),
            (Plain(Free), LINE, INCOMPLETE),
            (Plain(Free), PAIR, INCOMPLETE),
            // A row leaves less to have.
            (Plain(Pair), PAIR, Valid),
            (Plain(Pair), LINE, INCOMPLETE),
            // Every row is tested before.
            (Plain(Path), LINE, Valid),
            (Plain(Path), STAR, Invalid(Reason::Tree(1, 1))),
            (Plain(Path), PAIR, Invalid(Reason::Tree(1, 2))),
            (Plain(Path), TRIANGLE, Invalid(Reason::Join(2))),
            // A no is judged as before.
            (Plain(Triangle), TRIANGLE, Valid),
            // A circle by its cut rows.
            (Circular(Triangle), RING_PAIR, Valid),
            (Circular(Triangle), RING, INCOMPLETE),
            // The second side by its own rows.
            (Fork, FORK_STAR, Valid),
            (Fork, FORK_LINE, Invalid(Reason::Complete(2))),
            // All of side 1 before side 2.
            (Spider, SPIDER, INCOMPLETE),
        ],
    )
}

#[test]
fn version_1_takes_a_tree_without_some_orders(rt: HostRuntime) -> Result<(), NoMemory> {
    assert_judged(
        &rt,
        rt.alloc(),
        VERSION_1,
        &[
            (Plain(Free), STAR, Valid),
            (Plain(Free), LINE, Valid),
            (Plain(Free), PAIR, Valid),
            (Circular(Triangle), RING, Valid),
            (Fork, FORK_LINE, Valid),
            (Spider, SPIDER, Invalid(Reason::Order(2))),
        ],
    )
}

fn classes_counted<L: Ledger>(alloc: Global, m: &Matrix, blank: Blank) -> Result<Classes, NoMemory>
    requires name { blank.name ≡ L.name }
    requires parts { blank.parts ≡ L.parts }
    requires some { 0 < blank.parts }
{
    let mut steps = Steps::<L>::new(blank);
    even_classes(alloc, m, m.rows(), &mut steps)
}

fn classes_of(alloc: Global, m: &Matrix) -> Result<Classes, NoMemory> {
    classes_counted::<Brand>(alloc, m, Blank::new(1))
}

// Whether the tree stands for every order, as far as the classes tell.
fn is_complete(
    rt: &impl Abort,
    alloc: Global,
    tree: &PqTree,
    classes: &Classes,
) -> Result<bool, NoMemory> {
    assert_eq!(rt; tree.columns(), classes.columns());
    complete(alloc, tree, classes)
}

// Whether the tree with this text stands for every order of the rows, as far as walks of even length tell.
fn has_every_order(
    rt: &impl Abort,
    alloc: Global,
    m: &Matrix,
    text: &[u8],
) -> Result<bool, NoMemory> {
    let tree = PqTree::parse(alloc, text, m.columns())?.expect(rt, "a tree");
    is_complete(rt, alloc, &tree, &classes_of(alloc, m)?)
}

fn has_every_order_of(
    rt: &impl Abort,
    alloc: Global,
    rows: Rows,
    text: &[u8],
) -> Result<bool, NoMemory> {
    has_every_order(rt, alloc, &rows.matrix(alloc)?, text)
}

// Asserts of each tree whether it stands for every order of the rows.
fn assert_complete(
    rt: &impl Abort,
    alloc: Global,
    wanted: bool,
    trees: &[(Rows, &[u8])],
) -> Result<(), NoMemory> {
    for i in 0..trees.len() {
        let (rows, text) = trees[i];
        let answer = has_every_order_of(rt, alloc, rows, text)?;
        assert_eq!(rt; answer, wanted, "tree {i}");
    }
    Ok(())
}

#[test]
fn trees_with_every_order(rt: HostRuntime) -> Result<(), NoMemory> {
    assert_complete(
        &rt,
        rt.alloc(),
        true,
        &[
            (Free, b"(1 2 3)"),
            (Pair, b"((1 2) 3)"),
            (Path, b"[1 2 3]"),
            (Path, b"[3 2 1]"),
            // A tree with more frontiers than orders lacks none either.
            (LongPath, b"[1 2 3 4]"),
            (LongPath, b"(1 2 3 4)"),
            (LongPath, b"[1 2 (3 4)]"),
            (LongPath, b"((1 2) (3 4))"),
        ],
    )
}

#[test]
fn trees_without_some_order(rt: HostRuntime) -> Result<(), NoMemory> {
    assert_complete(
        &rt,
        rt.alloc(),
        false,
        &[
            (Free, b"[1 2 3]"),
            (Free, b"((1 2) 3)"),
            (Pair, b"((1 3) 2)"),
            (Pair, b"[1 2 3]"),
            (Path, b"[2 1 3]"),
            (LongPath, b"((1 3) 2 4)"),
        ],
    )
}
