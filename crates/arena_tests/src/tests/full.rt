// Full passes over a few rows in turn, on trees that are built by calls.
ghost use Rattle.std.specs.Prelude.{◌≤◌};

use super::calls::{put_under, take};
use super::passes::is_row;
use super::splices::{put_columns, put_together};
use full_pass::{End, FullWork, Settled, settle};
use pq_arena::{Arena, NodeId};
use row_model::{Matrix, NoMemory};
use std::alloc::Global;
use std::process::Abort;
use step_count::{Ledger, Steps};

// The full pass over row `k`, once all its conditions were seen to hold.
fn settle_row<L: Ledger>(
    rt: &impl Abort,
    arena: &Arena,
    m: &Matrix,
    k: u32,
    work: &mut FullWork,
    steps: &mut Steps<L>,
) -> Settled {
    assert!(rt; arena.is_one_tree());
    assert!(rt; arena.columns() == m.columns());
    assert!(rt; work.is_for(m.columns()));
    assert!(rt; 1 <= k);
    assert!(rt; k <= m.rows());
    arena.layout_law();
    settle(arena, m, k, work, steps)
}

// What a pass has to say: of a group, the node at this place, the one that was put together or the root, and how many
// members there are; of a run and the node that was put together beside it, the column at the end of the run, and how
// many members there are; of a run between two such nodes, the same of each.
#[derive(Clone, Copy, Drop)]
pub enum Wanted {
    Kept,
    Open,
    Group(usize, usize),
    Beside(u32, usize),
    Between((u32, usize), (u32, usize)),
}

// A tree of five columns, or of ten.
#[derive(Clone, Copy, Drop)]
pub enum Tree {
    // So many columns, the first, are under a Q-node of their own.
    Line(u32),
    // They are under a P-node of their own.
    Ring(u32),
    // The tree ([1 (2 3) 4] 5).
    Nested,
    // The tree ([1 (2 3 4) 5 6 (7 8) 9] 10).
    Two,
}

impl Tree {
    fn columns(self) -> u32
        ensures { (5 ≤ result) × (result ≤ 10) }
    {
        match self {
            Tree::Line(_) | Tree::Ring(_) | Tree::Nested => 5,
            Tree::Two => 10,
        }
    }
}

// A tree, and the rows that it is asked for.
#[derive(Clone, Copy, Drop)]
pub struct Case {
    tree: Tree,
    questions: &'static [(&'static [u32], Wanted)],
}

pub const FULL_CASES: [Case; 5] = [
    // The tree ([1 2 3 4] 5).
    Case {
        tree: Tree::Line(4),
        questions: &[
            (&[2, 3], Wanted::Kept),
            (&[1, 2], Wanted::Kept),
            (&[4, 5], Wanted::Open),
            (&[1, 3], Wanted::Open),
            (&[1, 2, 3, 4], Wanted::Kept),
            (&[1, 2, 3, 4, 5], Wanted::Kept),
        ],
    },
    // The tree ((1 2 3) 4 5).
    Case {
        tree: Tree::Ring(3),
        questions: &[
            (&[1, 3], Wanted::Group(0, 2)),
            (&[1, 2, 3, 5], Wanted::Group(1, 2)),
            (&[3, 4], Wanted::Open),
            (&[1, 2, 3], Wanted::Kept),
            (&[5], Wanted::Kept),
        ],
    },
    // The tree ([1 2 3] 4 5). Where the Q-node is a member, its ends show that it may be full.
    Case {
        tree: Tree::Line(3),
        questions: &[
            (&[1, 2, 3, 4], Wanted::Group(1, 2)),
            (&[1, 3], Wanted::Open),
            (&[1, 2, 3, 5], Wanted::Group(1, 2)),
            (&[1, 3, 4], Wanted::Open),
            (&[1, 2, 3, 4, 5], Wanted::Kept),
            (&[1, 2, 4], Wanted::Open),
            (&[4, 5], Wanted::Group(1, 2)),
        ],
    },
    // The tree ([1 (2 3) 4] 5).
    Case {
        tree: Tree::Nested,
        questions: &[
            (&[1, 2], Wanted::Beside(1, 1)),
            (&[3, 4], Wanted::Beside(4, 1)),
            (&[1, 2, 3], Wanted::Kept),
            (&[2, 3], Wanted::Kept),
            (&[1, 2, 4], Wanted::Open),
            (&[1, 4], Wanted::Open),
            (&[1, 5], Wanted::Open),
            (&[2, 5], Wanted::Open),
            (&[1, 2, 3, 4], Wanted::Kept),
        ],
    },
    // The tree ([1 (2 3 4) 5 6 (7 8) 9] 10).
    Case {
        tree: Tree::Two,
        questions: &[
            (&[2, 4, 5, 6, 8], Wanted::Between((5, 2), (6, 1))),
            (&[3, 5, 6], Wanted::Beside(5, 1)),
            (&[3, 5, 6, 7], Wanted::Between((5, 1), (6, 1))),
            (&[3, 5, 8], Wanted::Open),
            (&[1, 3, 5, 6, 7], Wanted::Open),
            (&[3, 5, 6, 10], Wanted::Open),
            (&[2, 3, 4, 5, 6, 7, 8], Wanted::Kept),
        ],
    },
];

// This end is at the node and at the leaf of the column.
fn assert_end(rt: &impl Abort, end: End, node: NodeId, column: u32) {
    assert_eq!(rt; end.node.index(), node.index());
    assert_eq!(rt; end.beside.index(), column.wrapping_sub(1));
}

// The pass said what is wanted, and left so many members and others.
fn assert_settled(
    rt: &impl Abort,
    nodes: [NodeId; 2],
    members: usize,
    others: usize,
    settled: Settled,
    wanted: Wanted,
) {
    match (settled, wanted) {
        (Settled::Kept, Wanted::Kept) | (Settled::Open, Wanted::Open) => {}
        (Settled::Group(p), Wanted::Group(place, count)) => {
            assert!(rt; place < 2);
            assert_eq!(rt; p.index(), nodes[place].index());
            assert_eq!(rt; members, count);
        }
        (Settled::Beside(end), Wanted::Beside(column, count)) => {
            assert_end(rt, end, nodes[0], column);
            assert_eq!(rt; members, count);
        }
        (Settled::Between(first, second), Wanted::Between(one, other)) => {
            assert_end(rt, first, nodes[0], one.0);
            assert_eq!(rt; members, one.1);
            assert_end(rt, second, nodes[1], other.0);
            assert_eq!(rt; others, other.1);
        }
        _ => assert!(rt; false),
    }
}

// Puts a P-node with these columns behind the children of a Q-node.
fn put_ring<L: Ledger>(
    rt: &impl Abort,
    arena: &mut Arena,
    line: NodeId,
    columns: &[u32],
    steps: &mut Steps<L>,
) -> NodeId {
    let ring = take(rt, arena, false, steps);
    put_columns(rt, arena, ring, columns, steps);
    put_under(rt, arena, line, 1, ring, steps);
    ring
}

// Puts the tree together. Gives the P-nodes in a Q-node, or the node over columns of its own; the second is the root
// where there is one alone.
fn put_tree<L: Ledger>(
    rt: &impl Abort,
    arena: &mut Arena,
    tree: Tree,
    steps: &mut Steps<L>,
) -> [NodeId; 2] {
    match tree {
        Tree::Line(last) => [put_together(rt, arena, true, last, steps), arena.root()],
        Tree::Ring(last) => [put_together(rt, arena, false, last, steps), arena.root()],
        Tree::Nested => {
            let line = take(rt, arena, true, steps);
            put_columns(rt, arena, line, &[1], steps);
            let ring = put_ring(rt, arena, line, &[2, 3], steps);
            put_columns(rt, arena, line, &[4], steps);
            let root = arena.root();
            put_under(rt, arena, root, 1, line, steps);
            [ring, root]
        }
        Tree::Two => {
            let line = take(rt, arena, true, steps);
            put_columns(rt, arena, line, &[1], steps);
            let first = put_ring(rt, arena, line, &[2, 3, 4], steps);
            put_columns(rt, arena, line, &[5, 6], steps);
            let second = put_ring(rt, arena, line, &[7, 8], steps);
            put_columns(rt, arena, line, &[9], steps);
            let root = arena.root();
            put_under(rt, arena, root, 1, line, steps);
            [first, second]
        }
    }
}

/// Makes the tree, and asks for each row in turn.
pub fn one_full_case<L: Ledger>(
    rt: &impl Abort,
    alloc: Global,
    case: &Case,
    steps: &mut Steps<L>,
) -> Result<(), NoMemory> {
    let columns = case.tree.columns();
    let mut arena = Arena::new(alloc, columns)?;
    let nodes = put_tree(rt, &mut arena, case.tree, steps);
    let mut work = FullWork::new(alloc, columns)?;
    for (row, wanted) in case.questions {
        assert!(rt; is_row(columns, row));
        let mut m = Matrix::new(alloc, columns)?;
        m.push_row(row)?;
        let settled = settle_row(rt, &arena, &m, 1, &mut work, steps);
        let members = work.members().len();
        let others = work.others().len();
        assert_settled(rt, nodes, members, others, settled, *wanted);
    }
    Ok(())
}
