// Answers that are worked out by hand: whether there is an order, and the tree that the reducer is left with.
ghost use Rattle.std.specs.Prelude.{◌<◌};

use super::counted::{Check, run_counted};
use super::marks::{matrix_of, text_of};
use c1p_solve::{Answered, Solved, answer, solve};
use incompat_graph::Cycle;
use row_model::{Line, Matrix, NoMemory, joined_by};
use row_reduce::ArenaReducer;
use std::alloc::Global;
use std::process::Abort;
use std::test::Fail;
use step_count::{Ledger, Steps};
use tree_theory::Reducer;

// The rows of a matrix, a digit for each column up to the last one, whether they have a valid order, and how the text of
// the tree begins that is left.
#[derive(Clone, Copy, Drop)]
struct Case {
    columns: u32,
    rows: &'static [&'static str],
    has_order: bool,
    left: &'static str,
}

const CASES: [Case; 4] = [
    Case {
        columns: 3,
        rows: &["110", "011"],
        has_order: true,
        left: "[1 2 3]",
    },
    Case {
        columns: 3,
        rows: &["110", "011", "101"],
        has_order: false,
        left: "[1 2 3]",
    },
    // A ring of four among thirty columns.
    Case {
        columns: 30,
        rows: &["11", "011", "0011", "1001"],
        has_order: false,
        left: "([1 2 3 4] 5 6 7 ",
    },
    // The refusal rests on three columns that the last row lacks.
    Case {
        columns: 60,
        rows: &["11", "0011", "000011", "010101"],
        has_order: false,
        left: "((1 2) (3 4) (5 6) 7 8 ",
    },
];

/// The lines are a closed walk of odd length: each line's reason joins its pair to the next, the last to the first.
pub fn assert_walk(rt: &impl Abort, m: &Matrix, lines: &[Line]) {
    assert!(rt; lines.len() % 2 == 1);
    for i in 0..lines.len() {
        let next = if i + 1 < lines.len() { i + 1 } else { 0 };
        assert!(rt; joined_by(m, lines[i].pair, lines[next].pair, lines[i].why));
    }
}

/// The lines are such a walk with no pair twice.
pub fn assert_cycle(rt: &impl Abort, m: &Matrix, cycle: &Cycle) {
    let lines = cycle.lines();
    assert_walk(rt, m, lines);
    for i in 0..lines.len() {
        for k in 0..i {
            assert!(rt; lines[k].pair != lines[i].pair);
        }
    }
}

// The answer is the one that is wanted, and the reducer is left with the tree that is wanted.
fn assert_answered(
    rt: &impl Abort,
    alloc: Global,
    m: &Matrix,
    case: &Case,
    answered: &Answered,
) -> Result<(), NoMemory> {
    match &answered.solved {
        Solved::Yes(tree) => {
            assert!(rt; case.has_order);
            let text = text_of(alloc, tree)?;
            assert!(rt; text.starts_with(case.left.as_bytes()));
        }
        Solved::No(cycle) => {
            assert!(rt; !case.has_order);
            assert_cycle(rt, m, cycle);
        }
    }
    let left = text_of(alloc, &answered.reducer.tree(alloc)?)?;
    assert!(rt; left.starts_with(case.left.as_bytes()));
    Ok(())
}

// A reducer of one's own leads to the same answer.
fn assert_solved<L: Ledger>(
    rt: &impl Abort,
    alloc: Global,
    m: &Matrix,
    case: &Case,
    steps: &mut Steps<L>,
) -> Result<(), NoMemory> {
    let mut reducer = ArenaReducer::new(alloc, m.columns())?;
    let solved = solve(alloc, &mut reducer, m, steps)?;
    assert!(rt; matches!(solved, Solved::Yes(_)) == case.has_order);
    Ok(())
}

// Each case has the answer that is wanted.
struct Answers;

impl Check for Answers {
    fn run<L: Ledger, R: Abort>(rt: &R, alloc: Global, steps: &mut Steps<L>) -> Result<(), Fail> {
        for case in &CASES {
            assert!(rt; 1 <= case.columns && case.columns <= 60);
            assert!(rt; case.rows.len() <= 32);
            let m = matrix_of(alloc, case.columns, case.rows)?;
            let answered = answer(alloc, &m, steps)?;
            assert_answered(rt, alloc, &m, case, &answered)?;
            assert_solved(rt, alloc, &m, case, steps)?;
        }
        Ok(())
    }
}

#[test]
fn answers_that_are_worked_out_by_hand(rt: HostRuntime) -> Result<(), Fail> {
    run_counted::<Answers, HostRuntime>(&rt, rt.alloc())
}
