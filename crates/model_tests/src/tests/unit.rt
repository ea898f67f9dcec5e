// The path of four vertices, the triangle and two vertices without an edge, worked by hand.
use crate::tests::graphs::Rule;
use crate::tests::told::{Question, assert_told};
use graph_model::Graph;
use row_model::NoMemory;
use std::alloc::Global;
use std::test::Fail;
use unit_model::{UnitText, parse_unit, print_unit, unit_fits};

#[test]
fn models_go_up_by_layers(rt: HostRuntime) -> Result<(), Fail> {
    let cases: [(&str, Question, &str); 4] = [
        (
            "4\n1 2\n2 3\n3 4\n",
            Question::Model(Rule::Unit, &[1, 2, 3, 4]),
            " 3 to 7 6 to 10 9 to 13 12 to 16",
        ),
        (
            "4\n1 2\n2 3\n3 4\n",
            Question::Model(Rule::Unit, &[4, 3, 2, 1]),
            " 12 to 16 9 to 13 6 to 10 3 to 7",
        ),
        // A layer stands together.
        (
            "3\n1 2\n1 3\n2 3\n",
            Question::Model(Rule::Unit, &[1, 2, 3]),
            " 2 to 5 3 to 6 4 to 7",
        ),
        // Components lie apart.
        (
            "2\n",
            Question::Model(Rule::Unit, &[1, 2]),
            " 0 to 2 4 to 6",
        ),
    ];
    assert_told(&rt, rt.alloc(), &cases)
}

pub fn unit_fits_told(
    alloc: Global,
    g: &Graph,
    lefts: &[u64],
    length: u64,
) -> Result<String, NoMemory> {
    if lefts.len() != g.vertices() as usize {
        return String::from_str(alloc, "another number of left ends");
    }
    let is_model = unit_fits(g, lefts, length);
    String::from_str(alloc, if is_model { "a model" } else { "no model" })
}

#[test]
fn left_ends_may_move_within_the_length(rt: HostRuntime) -> Result<(), Fail> {
    let path = "4\n1 2\n2 3\n3 4\n";
    let cases = [
        (path, Question::UnitFits(&[3, 6, 9, 13], 4), "a model"),
        (path, Question::UnitFits(&[3, 6, 9, 14], 4), "no model"),
        (path, Question::UnitFits(&[3, 6, 9, 10], 4), "no model"),
        (path, Question::UnitFits(&[3, 6, 9, 13], 0), "no model"),
    ];
    assert_told(&rt, rt.alloc(), &cases)
}

// The text of the unit model that the bytes say; none of its bytes where they say none.
fn printed_again(alloc: Global, bytes: &[u8]) -> Result<Vec<u8>, NoMemory> {
    let mut text = Vec::new(alloc);
    if let Some(unit) = parse_unit(alloc, bytes)? {
        print_unit(&unit, &mut text)?;
    }
    Ok(text)
}

#[test]
fn a_text_is_read_back(rt: HostRuntime) -> Result<(), Fail> {
    let bytes: &[u8] = b"pq-unit 1\nvertices 2\nlength 2\nunit 1 0\nunit 2 4\nend\n";
    let text = printed_again(rt.alloc(), bytes)?;
    assert_eq!(rt; text.as_slice(), bytes);
    Ok(())
}

// The number of vertices, the length and the left ends.
pub fn unit_text_told(alloc: Global, text: &[u8]) -> Result<String, NoMemory> {
    match parse_unit(alloc, text)? {
        Some(unit) => numbers_told(alloc, &unit),
        None => String::from_str(alloc, "no unit text"),
    }
}

fn numbers_told(alloc: Global, unit: &UnitText) -> Result<String, NoMemory> {
    format!(in alloc; "{} {} {:?}", unit.vertices(), unit.length(), unit.lefts())
}

// The case of a text that is not that of a unit model.
fn not_a_unit_text(text: &str) -> (&str, Question, &str) {
    (text, Question::UnitText, "no unit text")
}

#[test]
fn unit_texts_and_others(rt: HostRuntime) -> Result<(), Fail> {
    let cases: [(&str, Question, &str); 8] = [
        (
            "pq-unit 1\nvertices 2\nlength 2\nunit 1 0\nunit 2 4\nend\n",
            Question::UnitText,
            "2 2 [0, 4]",
        ),
        (
            "pq-unit 1\nvertices 1\nlength 0\nunit 1 18446744073709551615\nend\n",
            Question::UnitText,
            "1 0 [18446744073709551615]",
        ),
        not_a_unit_text("pq-unit 1\nvertices 1\nlength 1\nunit 1 0\nend"),
        not_a_unit_text("pq-unit 1\nvertices 1\nlength 1\nunit 2 0\nend\n"),
        not_a_unit_text("pq-unit 1\nvertices 1\nlength 1\nunit 1 00\nend\n"),
        not_a_unit_text("pq-unit 1\nvertices 1\nlength 18446744073709551616\nunit 1 0\nend\n"),
        not_a_unit_text("pq-unit 1\nvertices 0\nlength 1\nend\n"),
        not_a_unit_text("pq-unit 1\nvertices 1\nlength 1\nunit 1 0\nend\n\n"),
    ];
    assert_told(&rt, rt.alloc(), &cases)
}
