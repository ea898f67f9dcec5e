// Plain numbers and words.
use plain_text::{after_word, number, push_number};
use std::test::Fail;

#[test]
fn plain_numbers(rt: HostRuntime) -> Result<(), Fail> {
    let mut text = Vec::new(rt.alloc());
    for n in [0, 1024, 18_446_744_073_709_551_615] {
        push_number(&mut text, n)?;
    }
    assert_eq!(rt; text.as_slice(), b"0102418446744073709551615".as_slice());
    Ok(())
}

#[test]
fn numbers_and_words_at_the_front(rt: HostRuntime) {
    let numbers = [
        number(b"1024 x", 1024),
        number(b"1025", 1024),
        number(b"007", 9),
        number(b"18446744073709551616", u64::MAX),
    ];
    let wanted: [Option<(u64, &[u8])>; 4] = [Some((1024, b" x")), None, Some((0, b"07")), None];
    let words = [
        after_word(b"order 1", b"order "),
        after_word(b"orde", b"order "),
    ];
    assert_eq!(rt; (numbers, words), (wanted, [Some(b"1".as_slice()), None]));
}
