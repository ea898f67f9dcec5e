// The lines of a text, by their places.
use crate::tests::same::assert_same;
use text_lines::{
    FilledLine, LineSpan, next_filled_line, next_line, unmarked_part, whole_len, without_mark,
};

#[test]
fn lines_end_at_feeds_and_at_the_end(rt: HostRuntime) {
    let text = without_mark(b"\xEF\xBB\xBFa\r\n\nb\r");
    let span = |start, end, next| LineSpan { start, end, next };
    let found = [
        next_line(text, 0),
        next_line(text, 3),
        next_line(text, 4),
        next_line(text, 6),
    ];
    let wanted = [
        Some(span(0, 1, 3)),
        Some(span(3, 3, 4)),
        Some(span(4, 5, 6)),
        None,
    ];
    assert_same(&rt, found, wanted, "lines from 0, 3, 4 and 6 on");
    let filled = FilledLine {
        number: 3,
        span: span(4, 5, 6),
    };
    let found = next_filled_line(text, 3, 1);
    assert_same(&rt, found, Some(filled), "the filled line from 3 on");
}

#[test]
fn a_part_has_the_lines_up_to_its_last_feed(rt: HostRuntime) {
    let lengths = [whole_len(b"a\r\n\nb\r"), whole_len(b"b\r")];
    assert_same(&rt, lengths, [Some(4), None], "lengths of whole lines");
    let marked: &[u8] = b"\xEF\xBB\xBFa";
    let found = [unmarked_part(false, marked), unmarked_part(true, marked)];
    assert_same(
        &rt,
        found,
        [&marked[3..], marked],
        "a mark at the start and one later",
    );
}
