// Trees that are made by calls, each asked for rows whose answers were worked out by hand.

use super::answers::{counts_of, label_of};
use super::calls::{detach, give_back, leaf, put_under, replace, take};
use super::passes::{ask, assert_root, room_for};
use super::splices::{put_columns, put_together};
use bubble_pass::{Found, Label, Work};
use pq_arena::{Arena, NodeId};
use row_model::NoMemory;
use std::alloc::Global;
use std::process::Abort;
use step_count::{Ledger, Steps};

// What a tree looks like, and which of its nodes are named by places. A tree is over 2048 columns where it says no other
// number.
#[derive(Clone, Copy, Drop)]
pub enum Tree {
    // So many columns under one P-node: the root, and the leaf of the last column.
    Star(u32),
    // A Q-node over all columns but the last of so many, beside that one: the Q-node, and the root.
    Beside(u32),
    // All columns under one Q-node, which is the root.
    Chain,
    // P-nodes within one another: column k stands beside the node of the columns behind it. The nodes come from the
    // innermost, of the last two columns, to that of all columns.
    Nest,
    // Q-nodes within one another: each but the innermost has the next between two columns, one below 1025 and one above
    // it. The nodes come from the innermost, of the columns 1024 and 1025, to that of all columns.
    Lines,
}

// What a pass has to find.
#[derive(Clone, Copy, Drop)]
pub enum Wanted {
    // The node at this place, with its label; how many nodes have a label, and how many children of that one are full.
    Root(usize, Label, usize, u32),
    // A run of inner children of a Q-node, as many as the row has columns.
    Run,
    // No frontier keeps the row, and no node has a label.
    Split,
    // No frontier keeps the row; the pass may say so, or find the node at this place.
    SplitOr(usize),
}

// A row, or all columns where it has none, and what the pass finds for it.
pub type Question = (&'static [u32], Wanted);

// A tree, and the rows that it is asked for in turn.
#[derive(Clone, Copy, Drop)]
pub struct Case {
    pub tree: Tree,
    pub questions: &'static [Question],
}

pub const CASES: [Case; 7] = [
    Case {
        tree: Tree::Beside(5),
        questions: &[
            (&[2, 3], Wanted::Run),
            (&[1, 2], Wanted::Root(0, Label::Partial, 3, 2)),
            (&[4, 5], Wanted::Root(1, Label::Partial, 4, 1)),
            (&[1, 3], Wanted::SplitOr(0)),
        ],
    },
    // A run in the middle, one at an end, and two columns apart.
    Case {
        tree: Tree::Beside(600),
        questions: &[
            (&[51, 52, 53, 54], Wanted::Run),
            (&[1, 2, 3], Wanted::Root(0, Label::Partial, 4, 3)),
            (&[20, 30], Wanted::Split),
        ],
    },
    Case {
        tree: Tree::Star(600),
        questions: &[
            (&[5, 77], Wanted::Root(0, Label::Partial, 3, 2)),
            (&[600], Wanted::Root(1, Label::Full, 1, 0)),
        ],
    },
    Case {
        tree: Tree::Star(2048),
        questions: &[
            (&[5, 77], Wanted::Root(0, Label::Partial, 3, 2)),
            (&[2048], Wanted::Root(1, Label::Full, 1, 0)),
            (&[], Wanted::Root(0, Label::Full, 2049, 2048)),
        ],
    },
    Case {
        tree: Tree::Chain,
        questions: &[
            (&[1000, 1001, 1002], Wanted::Run),
            (&[10, 20], Wanted::Split),
            (&[1, 2], Wanted::Root(0, Label::Partial, 3, 2)),
            (&[2046, 2047, 2048], Wanted::Root(0, Label::Partial, 4, 3)),
            (&[], Wanted::Root(0, Label::Full, 2049, 2048)),
        ],
    },
    // For columns 1024 and 1025, two leaves and the nodes of the columns from these on; for the first and the last one,
    // two leaves and all other nodes.
    Case {
        tree: Tree::Nest,
        questions: &[
            (&[2047, 2048], Wanted::Root(0, Label::Full, 3, 2)),
            (&[1024, 1025], Wanted::Root(1023, Label::Partial, 4, 1)),
            (&[1, 2048], Wanted::Root(2046, Label::Partial, 2049, 1)),
            (&[], Wanted::Root(2046, Label::Full, 4095, 2)),
        ],
    },
    // The innermost node knows no node above it, and neither does a neighbour.
    Case {
        tree: Tree::Lines,
        questions: &[
            (&[1024, 1025], Wanted::Root(0, Label::Full, 3, 2)),
            (&[1023, 1024, 1025], Wanted::Root(1, Label::Partial, 5, 2)),
            (&[1, 1024], Wanted::Split),
            (&[], Wanted::Root(1023, Label::Full, 3072, 3)),
        ],
    },
];

// The last column of a tree that says no other number.
const LAST: u32 = 2048;

/// Makes the tree, and asks for each row.
pub fn one_case<L: Ledger>(
    rt: &impl Abort,
    alloc: Global,
    case: &Case,
    steps: &mut Steps<L>,
) -> Result<(), NoMemory> {
    let columns = match case.tree {
        Tree::Star(columns) | Tree::Beside(columns) => columns,
        Tree::Chain | Tree::Nest | Tree::Lines => LAST,
    };
    assert!(rt; 5 <= columns && columns <= LAST);
    let mut arena = Arena::new(alloc, columns)?;
    let nodes = make(rt, alloc, &mut arena, case.tree, steps)?;
    let mut work = room_for(rt, alloc, &arena)?;
    for question in case.questions {
        one_question(rt, alloc, &mut arena, &nodes, &mut work, question, steps)?;
    }
    Ok(())
}

// Asks for a row, and compares what the pass finds and leaves.
fn one_question<L: Ledger>(
    rt: &impl Abort,
    alloc: Global,
    arena: &mut Arena,
    nodes: &Vec<NodeId>,
    work: &mut Work,
    question: &Question,
    steps: &mut Steps<L>,
) -> Result<(), NoMemory> {
    let columns = arena.columns();
    let whole = whole_row(alloc, columns)?;
    let (row, wanted) = *question;
    let row = if row.is_empty() {
        whole.as_slice()
    } else {
        row
    };
    let found = ask(rt, alloc, arena, row, work, steps)?;
    assert_found(rt, nodes, work, columns, row, found, wanted);
    Ok(())
}

// The pass found and left what is wanted.
fn assert_found(
    rt: &impl Abort,
    nodes: &Vec<NodeId>,
    work: &Work,
    columns: u32,
    row: &[u32],
    found: Found,
    wanted: Wanted,
) {
    assert!(rt;
        work.inside() == matches!(found, Found::Inside),
        "row {row:?}"
    );
    match wanted {
        Wanted::Root(place, label, count, full) => {
            let root = node_at(rt, nodes, place);
            assert_root(rt, found, root);
            assert_eq!(rt; work.nodes().len(), count, "row {row:?}");
            assert_marked(rt, work, columns, root, label, full);
        }
        Wanted::Run => {
            assert!(rt; matches!(found, Found::Inside), "row {row:?}");
            assert_eq!(rt; work.nodes().len(), row.len());
            assert!(rt; label_of(rt, work, columns, node_at(rt, nodes, 0)) == Label::Empty);
        }
        Wanted::Split => {
            assert!(rt; matches!(found, Found::Split), "row {row:?}");
            assert_eq!(rt; work.nodes().len(), 0);
        }
        Wanted::SplitOr(place) => {
            if !matches!(found, Found::Split) {
                assert_root(rt, found, node_at(rt, nodes, place));
            }
        }
    }
}

// The pass left this label at the node, and so many full children.
fn assert_marked(
    rt: &impl Abort,
    work: &Work,
    columns: u32,
    node: NodeId,
    label: Label,
    full: u32,
) {
    assert!(rt; label_of(rt, work, columns, node) == label);
    assert_eq!(rt; counts_of(rt, work, columns, node).full, full);
}

// All columns.
fn whole_row(alloc: Global, columns: u32) -> Result<Vec<u32>, NoMemory> {
    let mut row = Vec::new(alloc);
    for column in 1..=columns {
        row.push(column)?;
    }
    Ok(row)
}

// Makes a tree of the universal one, and lists the nodes that are named.
fn make<L: Ledger>(
    rt: &impl Abort,
    alloc: Global,
    arena: &mut Arena,
    tree: Tree,
    steps: &mut Steps<L>,
) -> Result<Vec<NodeId>, NoMemory> {
    match tree {
        Tree::Star(_) => {
            let last = leaf(rt, arena, arena.columns());
            Ok(vec![in alloc; arena.root(), last]?)
        }
        Tree::Beside(columns) => {
            let line = put_together(rt, arena, true, columns.wrapping_sub(1), steps);
            Ok(vec![in alloc; line, arena.root()]?)
        }
        Tree::Chain => make_chain(rt, alloc, arena, steps),
        Tree::Nest => make_nest(rt, alloc, arena, steps),
        Tree::Lines => make_lines(rt, alloc, arena, steps),
    }
}

// Makes the Q-node over all columns in place of the root.
fn make_chain<L: Ledger>(
    rt: &impl Abort,
    alloc: Global,
    arena: &mut Arena,
    steps: &mut Steps<L>,
) -> Result<Vec<NodeId>, NoMemory> {
    let line = take(rt, arena, true, steps);
    let row = whole_row(alloc, arena.columns())?;
    put_columns(rt, arena, line, &row, steps);
    put_in_place_of_root(rt, arena, line, steps);
    Ok(vec![in alloc; line]?)
}

// The node has the place of the root, which has no children any more.
fn put_in_place_of_root<L: Ledger>(
    rt: &impl Abort,
    arena: &mut Arena,
    node: NodeId,
    steps: &mut Steps<L>,
) {
    let root = arena.root();
    replace(rt, arena, root, node, steps);
    give_back(rt, arena, root, steps);
}

// Makes the tree of P-nodes within one another in place of the root, and lists its nodes from the innermost.
fn make_nest<L: Ledger>(
    rt: &impl Abort,
    alloc: Global,
    arena: &mut Arena,
    steps: &mut Steps<L>,
) -> Result<Vec<NodeId>, NoMemory> {
    let mut nodes = Vec::new(alloc);
    let mut inner = leaf(rt, arena, LAST);
    detach(rt, arena, inner, steps);
    for i in 1..LAST {
        let node = take(rt, arena, false, steps);
        put_under(rt, arena, node, 1, inner, steps);
        put_columns(rt, arena, node, &[LAST - i], steps);
        nodes.push(node)?;
        inner = node;
    }
    put_in_place_of_root(rt, arena, inner, steps);
    Ok(nodes)
}

// The node at this place of the list.
fn node_at(rt: &impl Abort, nodes: &Vec<NodeId>, i: usize) -> NodeId {
    assert!(rt; i < nodes.len());
    nodes[i]
}

// Makes the tree of Q-nodes within one another in place of the root, and lists its nodes from the innermost.
fn make_lines<L: Ledger>(
    rt: &impl Abort,
    alloc: Global,
    arena: &mut Arena,
    steps: &mut Steps<L>,
) -> Result<Vec<NodeId>, NoMemory> {
    let mut nodes = Vec::new(alloc);
    let mut inner = take(rt, arena, true, steps);
    put_columns(rt, arena, inner, &[1024, 1025], steps);
    nodes.push(inner)?;
    for i in 1..1024 {
        let node = take(rt, arena, true, steps);
        put_columns(rt, arena, node, &[1024 - i], steps);
        put_under(rt, arena, node, 1, inner, steps);
        put_columns(rt, arena, node, &[1025 + i], steps);
        nodes.push(node)?;
        inner = node;
    }
    put_in_place_of_root(rt, arena, inner, steps);
    Ok(nodes)
}
