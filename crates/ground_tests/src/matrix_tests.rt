// Matrices, orders and lists.
ghost use Rattle.std.specs.Prelude.{◌≡◌, ◌<◌, ◌≤◌, [], ◌∷◌, IfOk, length, slice_index_or};
ghost use Rattle.row_model.specs.Rows.{IsRow};

use row_model::{Matrix, NoMemory, Span, Spans, is_order, positions, span_of};
use std::alloc::Global;
use std::fmt::Debug;
use std::process::Abort;
use std::test::Fail;
use step_count::{Blank, Brand, Ledger, Steps};

fn two_rows(alloc: Global, columns: u32, first: &[u32], second: &[u32]) -> Result<Matrix, NoMemory>
    requires columns { (1 ≤ columns) × (columns ≤ 4) }
    requires first { IsRow columns first.now }
    requires second { IsRow columns second.now }
    ensures { IfOk result (λ m. m ≡ record { columns = columns; rows = first.now ∷ second.now ∷ [] }) }
{
    let mut matrix = Matrix::new(alloc, columns)?;
    matrix.push_row(first)?;
    matrix.push_row(second)?;
    Ok(matrix)
}

fn assert_items<T: Copy + Debug + PartialEq>(rt: &impl Abort, items: &[T], wanted: &[T]) {
    assert_eq!(rt; items, wanted);
}

#[test]
fn two_rows_are_kept_and_the_last_goes(rt: HostRuntime) -> Result<(), Fail> {
    let mut matrix = two_rows(rt.alloc(), 4, &[2, 4], &[1])?;
    assert_items(&rt, matrix.row(1), &[2, 4]);
    let sizes = (matrix.columns(), matrix.rows(), matrix.ones());
    let has = [matrix.has(1, 4), matrix.has(2, 4)];
    matrix.pop_row();
    let left = (matrix.rows(), matrix.ones());
    assert_eq!(rt; (sizes, has, left), ((4, 2, 3), [true, false], (1, 2)));
    Ok(())
}

fn reads_counted<L: Ledger>(matrix: &Matrix, blank: Blank) -> [u32; 4]
    requires name { blank.name ≡ L.name }
    requires parts { blank.parts ≡ L.parts }
    requires some { 0 < blank.parts }
    requires rows { length matrix.now.rows ≡ 2 }
    requires members { length (slice_index_or matrix.now.rows 1 []) ≡ 2 }
{
    let mut steps: Steps<L> = Steps::new(blank);
    [
        matrix.has_counted(2, 4, &mut steps) as u32,
        matrix.has_counted(2, 3, &mut steps) as u32,
        matrix.member_counted(2, 1, &mut steps),
        matrix.member_counted(2, 2, &mut steps),
    ]
}

#[test]
fn counted_reads_give_what_the_row_has(rt: HostRuntime) -> Result<(), Fail> {
    let matrix = two_rows(rt.alloc(), 4, &[1], &[2, 4])?;
    let reads = reads_counted::<Brand>(&matrix, Blank::new(1));
    assert_eq!(rt; (matrix.row_len(2), reads), (2, [1, 0, 2, 4]));
    Ok(())
}

#[test]
fn an_order_keeps_every_row_or_not(rt: HostRuntime) -> Result<(), Fail> {
    let mut matrix = two_rows(rt.alloc(), 3, &[1, 2], &[])?;
    matrix.push_row(&[2, 3])?;
    let kept = [matrix.keeps(&[3, 2, 1]), matrix.keeps(&[1, 3, 2])];
    assert_eq!(rt; kept, [Ok(true), Ok(false)]);
    Ok(())
}

#[test]
fn an_order_has_each_column_once(rt: HostRuntime) {
    let alloc = rt.alloc();
    let are_orders = [
        is_order(alloc, 3, &[2, 3, 1]),
        is_order(alloc, 3, &[2, 1, 2]),
        is_order(alloc, 3, &[2, 1]),
        is_order(alloc, 3, &[2, 4, 1]),
    ];
    assert_eq!(rt; are_orders, [Ok(true), Ok(false), Ok(false), Ok(false)]);
}

fn assert_spans(rt: &impl Abort, positions: &[u32])
    requires { length positions.now ≡ 3 }
{
    let spans = [span_of(positions, &[1, 2]), span_of(positions, &[])];
    let wanted = [Some(Span { first: 1, last: 3 }), None];
    assert_eq!(rt; (positions, spans), ([3, 1, 2].as_slice(), wanted));
}

#[test]
fn a_row_spans_positions_of_an_order(rt: HostRuntime) -> Result<(), Fail> {
    let positions = positions(rt.alloc(), &[2, 3, 1])?;
    assert_spans(&rt, &positions);
    Ok(())
}

fn pushed(alloc: Global, first: Span, second: Span) -> Result<Spans, NoMemory> {
    let mut spans = Spans::with_capacity(alloc, 2)?;
    spans.push(first)?;
    spans.push(second)?;
    Ok(spans)
}

#[test]
fn what_is_pushed_comes_last(rt: HostRuntime) -> Result<(), Fail> {
    let alloc = rt.alloc();
    let first = Span { first: 1, last: 3 };
    let second = Span { first: 5, last: 5 };
    assert_items(
        &rt,
        pushed(alloc, first, second)?.as_slice(),
        &[first, second],
    );
    assert_items(&rt, Spans::new(alloc).as_slice(), &[]);
    let taken_over = Spans::from_vec(vec![in alloc; first; 2]?);
    assert_items(&rt, taken_over.as_slice(), &[first, first]);
    Ok(())
}
