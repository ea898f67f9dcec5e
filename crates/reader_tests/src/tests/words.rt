// The words of a line.
use crate::tests::same::assert_same;
use text_lines::{NumberWord, Numeral, WordSpan, next_number, next_word, number};

#[test]
fn words_are_runs_between_spaces_and_tabs(rt: HostRuntime) {
    let line = b" ab\tc";
    let found = [
        next_word(line, 0, 5),
        next_word(line, 3, 5),
        next_word(line, 3, 4),
    ];
    let word = |start, end| Some(WordSpan { start, end });
    assert_same(&rt, found, [word(1, 3), word(4, 5), None], line);
}

#[test]
fn a_word_is_a_number_or_none(rt: HostRuntime) {
    let line = b" 12\t007x  00000000000000003";
    let found = [
        next_number(line, 0),
        next_number(line, 4),
        next_number(line, 9),
        next_number(line, 27),
    ];
    let word = |number, next| Some(NumberWord { number, next });
    let wanted = [
        word(Numeral::Value(12), 4),
        word(Numeral::NotDigits, 9),
        word(Numeral::Value(3), 27),
        None,
    ];
    assert_same(&rt, found, wanted, line);
}

#[test]
fn numbers_end_at_64_bits(rt: HostRuntime) {
    let cases: [(&[u8], Numeral); 5] = [
        (b"007", Numeral::Value(7)),
        (b"18446744073709551615", Numeral::Value(u64::MAX)),
        (b"18446744073709551616", Numeral::TooLarge),
        (b"1a", Numeral::NotDigits),
        (b"", Numeral::NotDigits),
    ];
    for (word, wanted) in &cases {
        assert_same(&rt, number(word), *wanted, *word);
    }
}
