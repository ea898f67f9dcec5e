// Verdicts of version 1 on small instances, and what is said of them.
use super::small::Rows::{Circle, Path, Triangle};
use super::small::Small::{Chain, Circular, Plain, Spider, Zigzag};
use super::small::{LINE, STAR, TRIANGLE, VERSION_1, assert_judged};
use row_model::NoMemory;
use verdict_check::Checked::{Invalid, Valid};
use verdict_check::Reason;

const ANOTHER_KIND: &[u8] = b"kind rows\ncolumns 3\nanswer yes\ntree [1 2 3]\norder 1 2 3\nend\n";

const ANOTHER_COLUMN: &[u8] =
    b"kind matrix\ncolumns 4\nanswer yes\ntree [1 2 3 4]\norder 1 2 3 4\nend\n";

const ANOTHER_ORDER: &[u8] =
    b"kind matrix\ncolumns 3\nanswer yes\ntree [1 2 3]\norder 1 3 2\nend\n";

const TWO_LINES: &[u8] =
    b"kind matrix\ncolumns 3\nanswer no\nside 1\ncycle 2\n1 3 row 1\n3 2 row 3\nend\n";

const ONE_COLUMN_TWICE: &[u8] =
    b"kind matrix\ncolumns 3\nanswer no\nside 1\ncycle 3\n1 3 row 1\n3 3 row 3\n2 4 row 2\nend\n";

const THERE_AND_BACK: &[u8] =
    b"kind matrix\ncolumns 3\nanswer no\nside 1\ncycle 5\n1 3 flip\n3 1 flip\n1 3 row 1\n3 2 row 3\n2 1 row 2\nend\n";

const NO_ROW: &[u8] =
    b"kind matrix\ncolumns 3\nanswer no\nside 1\ncycle 3\n1 3 row 1\n3 2 row 3\n2 1 row 9\nend\n";

const CIRCLE: &[u8] = b"kind circular\ncolumns 4\nanswer yes\ntree [1 2 3 4]\norder 3 4 1 2\nend\n";

const NO_CIRCLE: &[u8] =
    b"kind circular\ncolumns 4\nanswer yes\ntree [1 2 3 4]\norder 2 4 3 1\nend\n";

// Each frontier is a circular order, but it does not keep the rows that are cut at column 1.
const CIRCLE_ELSEWHERE: &[u8] =
    b"kind circular\ncolumns 4\nanswer yes\ntree [2 1 4 3]\norder 3 4 1 2\nend\n";

const TWO_SIDES: &[u8] =
    b"kind doubly\ncolumns 2 3\nanswer yes\ntree (1 2)\norder 1 2\ntree [1 2 3]\norder 1 2 3\nend\n";

const ANOTHER_ORDER_2: &[u8] =
    b"kind doubly\ncolumns 2 3\nanswer yes\ntree (1 2)\norder 1 2\ntree [1 2 3]\norder 2 1 3\nend\n";

const ANOTHER_TREE_2: &[u8] =
    b"kind doubly\ncolumns 2 3\nanswer yes\ntree (1 2)\norder 1 2\ntree ((1 2) 3)\norder 1 2 3\nend\n";

const SIDE_2: &[u8] =
    b"kind doubly\ncolumns 3 4\nanswer no\nside 2\ncycle 7\n1 3 row 1\n3 2 row 2\n2 1 row 3\n4 2 row 1\n1 4 row 2\n4 3 row 3\n3 1 flip\nend\n";

const SIDE_1: &[u8] =
    b"kind doubly\ncolumns 3 4\nanswer no\nside 1\ncycle 3\n1 3 row 1\n3 2 row 2\n2 1 row 3\nend\n";

const INTERVALS: &[u8] =
    b"kind proper\ncolumns 4\nanswer yes\ntree [1 2 3 4]\norder 1 2 3 4\ninterval 1 5 11\ninterval 2 10 17\ninterval 3 15 23\ninterval 4 20 24\nend\n";

const OTHER_INTERVALS: &[u8] =
    b"kind proper\ncolumns 4\nanswer yes\ntree [1 2 3 4]\norder 1 2 3 4\ninterval 1 5 10\ninterval 2 10 15\ninterval 3 15 20\ninterval 4 20 20\nend\n";

#[test]
fn verdicts_of_yes_are_judged(rt: HostRuntime) -> Result<(), NoMemory> {
    assert_judged(
        &rt,
        rt.alloc(),
        VERSION_1,
        &[
            // By the order, and then by the tree.
            (Plain(Path), LINE, Valid),
            (Plain(Path), ANOTHER_KIND, Invalid(Reason::Kind)),
            (Plain(Path), ANOTHER_COLUMN, Invalid(Reason::Columns)),
            (Plain(Path), ANOTHER_ORDER, Invalid(Reason::Order(1))),
            (Plain(Path), STAR, Invalid(Reason::Tree(1, 1))),
            // A circular order by its rotation.
            (Circular(Circle), CIRCLE, Valid),
            (Circular(Circle), NO_CIRCLE, Invalid(Reason::Order(1))),
            (
                Circular(Circle),
                CIRCLE_ELSEWHERE,
                Invalid(Reason::Tree(1, 2)),
            ),
            // Two sides one after the other.
            (Zigzag, TWO_SIDES, Valid),
            (Zigzag, ANOTHER_ORDER_2, Invalid(Reason::Order(2))),
            (Zigzag, ANOTHER_TREE_2, Invalid(Reason::Tree(2, 2))),
            // Intervals by the graph.
            (Chain, INTERVALS, Valid),
            (Chain, OTHER_INTERVALS, Invalid(Reason::Intervals)),
        ],
    )
}

#[test]
fn verdicts_of_no_are_judged_by_the_cycle(rt: HostRuntime) -> Result<(), NoMemory> {
    assert_judged(
        &rt,
        rt.alloc(),
        VERSION_1,
        &[
            (Plain(Triangle), TRIANGLE, Valid),
            (Plain(Triangle), TWO_LINES, Invalid(Reason::Length(2))),
            (Plain(Triangle), ONE_COLUMN_TWICE, Invalid(Reason::Pair(2))),
            (Plain(Triangle), THERE_AND_BACK, Invalid(Reason::Repeat(3))),
            (Plain(Triangle), NO_ROW, Invalid(Reason::Join(3))),
            // On its side.
            (Spider, SIDE_2, Valid),
            (Spider, SIDE_1, Invalid(Reason::Join(1))),
        ],
    )
}
