// Rows of small matrices in turn: what becomes of each and the tree that it leaves are worked out by hand.
ghost use Rattle.std.specs.Prelude.{◌<◌};

use super::both::begin;
use super::counted::{Check, run_counted};
use super::marks::mark_ones;
use std::alloc::Global;
use std::process::Abort;
use std::test::Fail;
use step_count::{Ledger, Steps};
use tree_theory::Step;

// A row, a digit for each column, with what becomes of it and the tree after it.
type Row = (&'static str, Step, &'static str);

// The rows of a matrix in turn.
#[derive(Clone, Copy, Drop)]
struct Case {
    columns: u32,
    rows: &'static [Row],
}

const CASES: [Case; 12] = [
    // Two rows that overlap become a Q-node, and a row that leaves no order changes nothing.
    Case {
        columns: 3,
        rows: &[
            ("110", Step::Taken, "((1 2) 3)"),
            ("011", Step::Taken, "[1 2 3]"),
            ("101", Step::Refused, "[1 2 3]"),
            ("111", Step::Taken, "[1 2 3]"),
        ],
    },
    Case {
        columns: 1,
        rows: &[("1", Step::Taken, "1")],
    },
    Case {
        columns: 2,
        rows: &[("00", Step::Taken, "(1 2)"), ("11", Step::Taken, "(1 2)")],
    },
    Case {
        columns: 4,
        rows: &[
            ("1100", Step::Taken, "((1 2) 3 4)"),
            ("1110", Step::Taken, "(((1 2) 3) 4)"),
            ("1100", Step::Taken, "(((1 2) 3) 4)"),
            ("1110", Step::Taken, "(((1 2) 3) 4)"),
        ],
    },
    // A column between two rows stands in the middle.
    Case {
        columns: 3,
        rows: &[
            ("101", Step::Taken, "((1 3) 2)"),
            ("110", Step::Taken, "[2 1 3]"),
        ],
    },
    // A row across two P-nodes joins them in a Q-node.
    Case {
        columns: 5,
        rows: &[
            ("11000", Step::Taken, "((1 2) 3 4 5)"),
            ("00110", Step::Taken, "((1 2) (3 4) 5)"),
            ("01100", Step::Taken, "([1 2 3 4] 5)"),
        ],
    },
    Case {
        columns: 6,
        rows: &[
            ("110000", Step::Taken, "((1 2) 3 4 5 6)"),
            ("001100", Step::Taken, "((1 2) (3 4) 5 6)"),
            ("000011", Step::Taken, "((1 2) (3 4) (5 6))"),
            ("010101", Step::Refused, "((1 2) (3 4) (5 6))"),
        ],
    },
    // A chain becomes a Q-node.
    Case {
        columns: 5,
        rows: &[
            ("11000", Step::Taken, "((1 2) 3 4 5)"),
            ("01100", Step::Taken, "([1 2 3] 4 5)"),
            ("00000", Step::Taken, "([1 2 3] 4 5)"),
            ("00110", Step::Taken, "([1 2 3 4] 5)"),
            ("00011", Step::Taken, "[1 2 3 4 5]"),
            ("01110", Step::Taken, "[1 2 3 4 5]"),
        ],
    },
    // Rows in a run of inner children.
    Case {
        columns: 7,
        rows: &[
            ("1100000", Step::Taken, "((1 2) 3 4 5 6 7)"),
            ("0111100", Step::Taken, "([1 2 (3 4 5)] 6 7)"),
            ("0000110", Step::Taken, "([1 2 (3 4) 5 6] 7)"),
            ("0010100", Step::Taken, "([1 2 4 3 5 6] 7)"),
            ("0101000", Step::Taken, "([1 2 4 3 5 6] 7)"),
            ("0011001", Step::Refused, "([1 2 4 3 5 6] 7)"),
        ],
    },
    // Each template at P-nodes.
    Case {
        columns: 8,
        rows: &[
            ("11100000", Step::Taken, "((1 2 3) 4 5 6 7 8)"),
            ("00011100", Step::Taken, "((1 2 3) (4 5 6) 7 8)"),
            ("10010000", Step::Taken, "([(2 3) 1 4 (5 6)] 7 8)"),
            ("01000010", Step::Taken, "([(5 6) 4 1 3 2 7] 8)"),
            ("00001101", Step::Taken, "[7 2 3 1 4 (5 6) 8]"),
            ("11111111", Step::Taken, "[7 2 3 1 4 (5 6) 8]"),
            ("01001000", Step::Refused, "[7 2 3 1 4 (5 6) 8]"),
        ],
    },
    // Nested rows are groups.
    Case {
        columns: 6,
        rows: &[
            ("010100", Step::Taken, "(1 (2 4) 3 5 6)"),
            ("111110", Step::Taken, "((1 (2 4) 3 5) 6)"),
            ("110100", Step::Taken, "(((1 (2 4)) 3 5) 6)"),
            ("110110", Step::Taken, "((((1 (2 4)) 5) 3) 6)"),
            ("001001", Step::Taken, "[((1 (2 4)) 5) 3 6]"),
            ("110100", Step::Taken, "[((1 (2 4)) 5) 3 6]"),
        ],
    },
    // A refused row is followed by others.
    Case {
        columns: 4,
        rows: &[
            ("1100", Step::Taken, "((1 2) 3 4)"),
            ("0110", Step::Taken, "([1 2 3] 4)"),
            ("1010", Step::Refused, "([1 2 3] 4)"),
            ("0011", Step::Taken, "[1 2 3 4]"),
        ],
    },
];

fn agree_on_case<L: Ledger>(
    rt: &impl Abort,
    alloc: Global,
    case: &Case,
    steps: &mut Steps<L>,
) -> Result<(), Fail> {
    assert!(rt; 1 <= case.columns && case.columns <= 8);
    let mut both = begin(alloc, case.columns)?;
    let mut marks = vec![in alloc; false; case.columns as usize]?;
    for (digits, wanted, tree) in case.rows {
        mark_ones(digits, &mut marks);
        let step = both.take(rt, alloc, &marks, steps)?;
        assert_eq!(rt; step, *wanted, "at {digits}");
        assert_eq!(rt; both.text.as_slice(), tree.as_bytes(), "at {digits}");
    }
    Ok(())
}

// Both reducers agree on each case.
struct Worked;

impl Check for Worked {
    fn run<L: Ledger, R: Abort>(rt: &R, alloc: Global, steps: &mut Steps<L>) -> Result<(), Fail> {
        for case in &CASES {
            agree_on_case(rt, alloc, case, steps)?;
        }
        Ok(())
    }
}

#[test]
fn rows_that_are_worked_out_by_hand(rt: HostRuntime) -> Result<(), Fail> {
    run_counted::<Worked, HostRuntime>(&rt, rt.alloc())
}
