// The path of four vertices, worked by hand.
use crate::tests::graphs::Rule;
use crate::tests::told::{Question, assert_told};
use graph_model::Graph;
use proper_interval::fits;
use row_model::{Interval, NoMemory};
use std::alloc::Global;
use std::test::Fail;

#[test]
fn intervals_are_listed_by_vertex(rt: HostRuntime) -> Result<(), Fail> {
    let path = "4\n1 2\n2 3\n3 4\n";
    let cases: [(&str, Question, &str); 3] = [
        (
            path,
            Question::Model(Rule::Proper, &[1, 2, 3, 4]),
            " 5 to 11 10 to 17 15 to 23 20 to 24",
        ),
        (
            path,
            Question::Model(Rule::Proper, &[4, 3, 2, 1]),
            " 20 to 24 15 to 23 10 to 17 5 to 11",
        ),
        (
            path,
            Question::Model(Rule::Proper, &[1, 3, 2, 4]),
            "no umbrella order",
        ),
    ];
    assert_told(&rt, rt.alloc(), &cases)
}

pub fn fits_told(alloc: Global, g: &Graph, list: &[Interval]) -> Result<String, NoMemory> {
    let told = if list.len() != g.vertices() as usize {
        "another number of vertices"
    } else if fits(g, list) {
        "a model"
    } else {
        "no model"
    };
    String::from_str(alloc, told)
}

// Asks about a model of the path whose last interval has these ends.
fn with_last(left: u64, right: u64) -> Question<'static> {
    let last = interval(left, right);
    Question::Fits([interval(5, 10), interval(10, 15), interval(15, 20), last])
}

fn interval(left: u64, right: u64) -> Interval {
    Interval { left, right }
}

#[test]
fn a_model_fits_unless_one_contains_another(rt: HostRuntime) -> Result<(), Fail> {
    let path = "4\n1 2\n2 3\n3 4\n";
    let cases = [
        (path, with_last(20, 24), "a model"),
        (path, with_last(20, 20), "no model"),
        (path, with_last(21, 24), "no model"),
    ];
    assert_told(&rt, rt.alloc(), &cases)
}
