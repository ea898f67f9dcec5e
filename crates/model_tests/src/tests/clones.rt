// The places of clones and their contigs, worked by hand.
use crate::tests::told::{Question, assert_told};
use clone_map::{Placed, place};
use row_model::{Matrix, NoMemory, is_order};
use std::alloc::Global;
use std::test::Fail;

// The places and the contigs, where the order is valid.
pub fn placed_told(alloc: Global, matrix: &Matrix, order: &[u32]) -> Result<String, NoMemory> {
    if !is_order(alloc, matrix.columns(), order)? || !matrix.keeps(order)? {
        return String::from_str(alloc, "not valid");
    }
    all_told(alloc, &place(alloc, matrix, order)?)
}

fn all_told(alloc: Global, placed: &Placed) -> Result<String, NoMemory> {
    let (places, contigs) = (placed.places.as_slice(), placed.contigs.as_slice());
    format!(in alloc; "{places:?}, contigs {contigs:?}")
}

#[test]
fn clones_with_a_common_probe_lie_in_one_contig(rt: HostRuntime) -> Result<(), Fail> {
    let cases: [(&str, Question, &str); 2] = [
        (
            "5\n1 2\n2 3\n\n4\n",
            Question::Placed(&[1, 2, 3, 4, 5]),
            "[At { first: 1, last: 2 }, At { first: 2, last: 3 }, Nowhere, At { first: 4, last: 4 }], \
             contigs [Span { first: 1, last: 3 }, Span { first: 4, last: 4 }, Span { first: 5, last: 5 }]",
        ),
        // A clone within another ends no contig.
        (
            "4\n1 2 3\n3\n",
            Question::Placed(&[4, 2, 3, 1]),
            "[At { first: 2, last: 4 }, At { first: 3, last: 3 }], \
             contigs [Span { first: 1, last: 1 }, Span { first: 2, last: 4 }]",
        ),
    ];
    assert_told(&rt, rt.alloc(), &cases)
}
