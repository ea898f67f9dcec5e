// Single calls, and what there is to see after each.

use super::calls::{detach, give_back, is_same, leaf, put_under, replace, splice, take, view_of};
use super::pictures::{children_of, place_of, read};
use super::plain::sum;
use pq_arena::{Arena, NodeId, Shape};
use row_model::NoMemory;
use std::alloc::Global;
use std::process::Abort;
use step_count::{Ledger, Steps};

// A Q-node over the columns 2, 3 and 5 in line, between other columns of a Q-node above it, is spliced.
#[derive(Clone, Copy)]
pub struct Splice {
    before: &'static [u32],
    behind: &'static [u32],
    // The end that comes to stand beside this column, which is 0 for none.
    first: usize,
    near: u32,
    wanted: &'static [u32],
}

// Each end of the Q-node beside each neighbour: between two others, at either end of the line, and with none beside it.
pub const SPLICES: [Splice; 14] = [
    // Between two others.
    Splice {
        before: &[1],
        behind: &[4],
        first: 0,
        near: 1,
        wanted: &[1, 2, 3, 5, 4],
    },
    Splice {
        before: &[1],
        behind: &[4],
        first: 1,
        near: 1,
        wanted: &[1, 5, 3, 2, 4],
    },
    Splice {
        before: &[1],
        behind: &[4],
        first: 0,
        near: 4,
        wanted: &[1, 5, 3, 2, 4],
    },
    Splice {
        before: &[1],
        behind: &[4],
        first: 1,
        near: 4,
        wanted: &[1, 2, 3, 5, 4],
    },
    // At the first end.
    Splice {
        before: &[],
        behind: &[4],
        first: 0,
        near: 0,
        wanted: &[2, 3, 5, 4],
    },
    Splice {
        before: &[],
        behind: &[4],
        first: 1,
        near: 0,
        wanted: &[5, 3, 2, 4],
    },
    Splice {
        before: &[],
        behind: &[4],
        first: 0,
        near: 4,
        wanted: &[5, 3, 2, 4],
    },
    Splice {
        before: &[],
        behind: &[4],
        first: 1,
        near: 4,
        wanted: &[2, 3, 5, 4],
    },
    // At the last end.
    Splice {
        before: &[1],
        behind: &[],
        first: 0,
        near: 0,
        wanted: &[1, 5, 3, 2],
    },
    Splice {
        before: &[1],
        behind: &[],
        first: 1,
        near: 0,
        wanted: &[1, 2, 3, 5],
    },
    Splice {
        before: &[1],
        behind: &[],
        first: 0,
        near: 1,
        wanted: &[1, 2, 3, 5],
    },
    Splice {
        before: &[1],
        behind: &[],
        first: 1,
        near: 1,
        wanted: &[1, 5, 3, 2],
    },
    // Alone.
    Splice {
        before: &[],
        behind: &[],
        first: 0,
        near: 0,
        wanted: &[2, 3, 5],
    },
    Splice {
        before: &[],
        behind: &[],
        first: 1,
        near: 0,
        wanted: &[5, 3, 2],
    },
];

/// Makes one of the trees, splices its Q-node, and compares the line that comes of it. The node becomes spare.
pub fn one_splice<L: Ledger>(
    rt: &impl Abort,
    alloc: Global,
    case: Splice,
    steps: &mut Steps<L>,
) -> Result<(), NoMemory> {
    let mut arena = Arena::new(alloc, 6)?;
    let child = take(rt, &mut arena, true, steps);
    put_columns(rt, &mut arena, child, &[2, 3, 5], steps);
    let line = take(rt, &mut arena, true, steps);
    put_columns(rt, &mut arena, line, case.before, steps);
    put_under(rt, &mut arena, line, 1, child, steps);
    put_columns(rt, &mut arena, line, case.behind, steps);
    let root = arena.root();
    put_under(rt, &mut arena, root, 0, line, steps);
    let spare = arena.spare() as usize;
    let near = if case.near == 0 {
        None
    } else {
        Some(leaf(rt, &arena, case.near))
    };
    splice(rt, &mut arena, child, case.first, near, steps);
    assert_eq!(rt; arena.spare() as usize, sum(rt, spare, 1));
    assert!(rt; !arena.is_in_use(child, steps));
    assert_columns(rt, alloc, &arena, line, case.wanted, steps)
}

/// Puts columns that stand under a P-node behind the children of a node, one after another.
pub fn put_columns<L: Ledger>(
    rt: &impl Abort,
    arena: &mut Arena,
    node: NodeId,
    columns: &[u32],
    steps: &mut Steps<L>,
) {
    for column in columns {
        put_column(rt, arena, node, *column, steps);
    }
}

// Puts a column that stands under a P-node behind the children of a node.
fn put_column<L: Ledger>(
    rt: &impl Abort,
    arena: &mut Arena,
    node: NodeId,
    column: u32,
    steps: &mut Steps<L>,
) {
    let n = leaf(rt, arena, column);
    detach(rt, arena, n, steps);
    put_under(rt, arena, node, 1, n, steps);
}

/// Takes a Q-node where `line` holds, else a P-node, for the columns from 1 to `last` under the root, where it stands
/// instead of them.
pub fn put_together<L: Ledger>(
    rt: &impl Abort,
    arena: &mut Arena,
    line: bool,
    last: u32,
    steps: &mut Steps<L>,
) -> NodeId {
    let node = take(rt, arena, line, steps);
    for column in 1..=last {
        put_column(rt, arena, node, column, steps);
    }
    let root = arena.root();
    put_under(rt, arena, root, 1, node, steps);
    node
}

// The children of the node are the leaves of these columns, from left to right. All links of the tree are tested too.
fn assert_columns<L: Ledger>(
    rt: &impl Abort,
    alloc: Global,
    arena: &Arena,
    node: NodeId,
    columns: &[u32],
    steps: &mut Steps<L>,
) -> Result<(), NoMemory> {
    let tree = read(rt, alloc, arena, steps)?;
    let place = place_of(rt, &tree, node);
    let children = children_of(rt, &tree, place);
    assert_eq!(rt; children.len(), columns.len());
    for i in 0..columns.len() {
        let is_it = matches!(children[i].shape, Shape::Leaf(column) if column == columns[i]);
        assert!(rt; is_it);
    }
    Ok(())
}

/// The nodes of an arena over three columns that are spare: one fewer after a node is taken, one more after it is given
/// back, and the next to be taken.
pub fn taken_and_given_back<L: Ledger>(rt: &impl Abort, arena: &mut Arena, steps: &mut Steps<L>) {
    assert_eq!(rt; arena.spare(), 6);
    let p = take(rt, arena, false, steps);
    assert_eq!(rt; arena.spare(), 5);
    let q = take(rt, arena, true, steps);
    assert_eq!(rt; arena.spare(), 4);
    give_back(rt, arena, p, steps);
    assert_eq!(rt; arena.spare(), 5);
    assert!(rt; !arena.is_in_use(p, steps));
    give_back(rt, arena, q, steps);
    assert_eq!(rt; arena.spare(), 6);
    let next = take(rt, arena, false, steps);
    assert_eq!(rt; next.index(), q.index());
}

// The two neighbours of a node, the first behind it in a ring, are these columns, or none where a column is 0.
fn assert_near<L: Ledger>(
    rt: &impl Abort,
    arena: &Arena,
    n: NodeId,
    first: u32,
    second: u32,
    steps: &mut Steps<L>,
) {
    let view = view_of(rt, arena, n, steps);
    assert!(rt; is_same(view.near[0], named(rt, arena, first)));
    assert!(rt; is_same(view.near[1], named(rt, arena, second)));
}

// The leaf of the column; none for 0.
fn named(rt: &impl Abort, arena: &Arena, column: u32) -> Option<NodeId> {
    if column == 0 {
        None
    } else {
        Some(leaf(rt, arena, column))
    }
}

/// The neighbours in a ring of three while one of them leaves, stands alone and comes back, and in a run.
pub fn neighbours<L: Ledger>(
    rt: &impl Abort,
    alloc: Global,
    steps: &mut Steps<L>,
) -> Result<(), NoMemory> {
    let mut arena = Arena::new(alloc, 3)?;
    let root = arena.root();
    let one = leaf(rt, &arena, 1);
    let two = leaf(rt, &arena, 2);
    assert_near(rt, &arena, one, 2, 3, steps);
    detach(rt, &mut arena, two, steps);
    assert_near(rt, &arena, one, 3, 3, steps);
    assert_near(rt, &arena, two, 0, 0, steps);
    put_under(rt, &mut arena, root, 0, two, steps);
    assert_columns(rt, alloc, &arena, root, &[2, 1, 3], steps)?;
    assert_near(rt, &arena, two, 1, 3, steps);
    let line = take(rt, &mut arena, true, steps);
    put_columns(rt, &mut arena, line, &[1, 2, 3], steps);
    replace(rt, &mut arena, root, line, steps);
    give_back(rt, &mut arena, root, steps);
    assert_columns(rt, alloc, &arena, line, &[1, 2, 3], steps)?;
    assert!(rt; is_same(view_of(rt, &arena, two, steps).parent, None));
    assert!(rt; is_same(view_of(rt, &arena, one, steps).parent, Some(line)));
    Ok(())
}
