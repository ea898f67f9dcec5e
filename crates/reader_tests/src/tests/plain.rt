// Lines in the plainest form.
use crate::tests::same::assert_same;
use text_lines::{PlainPair, plain_pair};

#[test]
fn a_pair_is_two_numbers_and_a_line_feed(rt: HostRuntime) {
    let text = b"12 7\n0 007\n123456789 1\n1234567 98765432\n";
    let found = |first, second, next| {
        Some(PlainPair {
            first,
            second,
            next,
        })
    };
    let pairs = [
        plain_pair(text, 0),
        plain_pair(text, 5),
        plain_pair(text, 11),
        plain_pair(text, 23),
        plain_pair(text, 40),
    ];
    let wanted = [
        found(12, 7, 5),
        found(0, 7, 11),
        found(123456789, 1, 23),
        found(1234567, 98765432, 40),
        None,
    ];
    assert_same(&rt, pairs, wanted, "pairs from 0, 5, 11, 23 and 40 on");
}

#[test]
fn another_line_is_no_plain_pair(rt: HostRuntime) {
    let lines: [&[u8]; 10] = [
        b"\n",
        b"1\n",
        b"1 2",
        b"1 2\r\n",
        b"1 2 \n",
        b"1 2 3\n",
        b"1  2\n",
        b" 1 2\n",
        b"1\t2\n",
        b"1234567890 2\n",
    ];
    for line in &lines {
        assert_same(&rt, plain_pair(line, 0), None, *line);
    }
}
