// The derived rows of each kind, and what some kinds have besides, on small instances that were worked by hand.
ghost use Rattle.instance_model.specs.Instance.{IsInstance};
ghost use Rattle.instance_model.specs.Value.{instance_value};

use crate::tests::told::{Question, assert_told};
use circular_ones::turned;
use instance_model::Instance;
use row_model::{Kind, Matrix, NoMemory, is_order};
use std::alloc::Global;
use std::test::Fail;

// Adds the number of columns and the rows of a matrix.
fn push_matrix(text: &mut String, matrix: &Matrix) -> Result<(), NoMemory> {
    write!(text, "{}:", matrix.columns())?;
    for k in 0..matrix.rows() {
        write!(text, " {:?}", matrix.row(k + 1))?;
    }
    text.push_str("\n")
}

// The derived matrices of all sides.
pub fn derived_told(alloc: Global, instance: &Instance) -> Result<String, NoMemory>
    requires { IsInstance (instance_value instance.now) }
{
    let mut text = String::new(alloc);
    for side in 0..instance.sides() {
        push_matrix(&mut text, &instance.derived(alloc, side + 1)?)?;
    }
    Ok(text)
}

#[test]
fn derived_rows(rt: HostRuntime) -> Result<(), Fail> {
    let cases: [(&str, Question, &str); 9] = [
        // A matrix stands for itself.
        (
            "3\n1 2\n2 3\n",
            Question::Derived(Kind::Rows),
            "3: [1, 2] [2, 3]\n",
        ),
        // Of a circular matrix the rows with column 1 are complemented, and the others stay.
        (
            "110\n011\n101\n",
            Question::Derived(Kind::Circular),
            "3: [3] [2, 3] [2]\n",
        ),
        (
            "0110\n0011\n0101\n",
            Question::Derived(Kind::Circular),
            "4: [2, 3] [3, 4] [2, 4]\n",
        ),
        // Of a bipartite graph they are the neighbours of the left side, and then those of the right side.
        (
            "2 3\n1 1\n1 3\n2 2\n2 3\n",
            Question::Derived(Kind::Convex),
            "3: [1, 3] [2, 3]\n",
        ),
        (
            "4 3\n1 1\n2 1\n1 2\n3 2\n1 3\n4 3\n",
            Question::Derived(Kind::Doubly),
            "3: [1, 2, 3] [1] [2] [3]\n4: [1, 2] [1, 3] [1, 4]\n",
        ),
        (
            "2 2\n1 1\n1 2\n2 2\n",
            Question::Derived(Kind::Doubly),
            "2: [1, 2] [2]\n2: [1] [1, 2]\n",
        ),
        // Of a graph they have the vertex and its neighbours.
        (
            "3\n1 2\n",
            Question::Derived(Kind::Proper),
            "3: [1, 2] [1, 2] [3]\n",
        ),
        (
            "4\n1 2\n2 3\n3 4\n",
            Question::Derived(Kind::Proper),
            "4: [1, 2] [1, 2, 3] [2, 3, 4] [3, 4]\n",
        ),
        // Of distances they are the balls.
        (
            "3\n0 1 2\n1 0 1\n2 1 0\n",
            Question::Derived(Kind::Robinson),
            "3: [1] [1, 2] [1, 2, 3] [2] [1, 2, 3] [3] [2, 3] [1, 2, 3]\n",
        ),
    ];
    assert_told(&rt, rt.alloc(), &cases)
}

// The kind, the number of sides and the columns of each.
pub fn sizes_told(alloc: Global, instance: &Instance) -> Result<String, NoMemory> {
    let mut text = format!(in alloc; "{:?} {}:", instance.kind(), instance.sides())?;
    for side in 0..instance.sides() {
        write!(text, " {}", instance.columns(side + 1))?;
    }
    Ok(text)
}

#[test]
fn instances_have_kinds_sides_and_columns(rt: HostRuntime) -> Result<(), Fail> {
    let cases: [(&str, Question, &str); 2] = [
        ("3\n", Question::Sizes(Kind::Rows), "Rows 1: 3"),
        ("4 3\n", Question::Sizes(Kind::Doubly), "Doubly 2: 3 4"),
    ];
    assert_told(&rt, rt.alloc(), &cases)
}

#[test]
fn an_order_is_turned_to_begin_with_column_1(rt: HostRuntime) -> Result<(), Fail> {
    let order = [2, 3, 1];
    assert!(rt; is_order(rt.alloc(), 3, &order)?);
    assert_eq!(rt;
        turned(rt.alloc(), &order)?.as_slice(),
        [1, 2, 3].as_slice()
    );
    Ok(())
}
