// Lines in the plainest form: numbers with one space between two, and a line feed behind the last.
ghost use Rattle.std.specs.Prelude.{◌≡◌, ◌-◌, ◌<◌, ◌≤◌, ◌∷◌, [], true, false, length, drop, map, slice_range, None, IfSome};
ghost use Rattle.std.specs.Char.{is_ascii_digit};
ghost use Rattle.std.specs.List.{list_all};
ghost use Rattle.text_lines.specs.Lines.{lines_of, is_blank};
ghost use Rattle.text_lines.specs.Words.{words_of, number_after, numeral_of};

use crate::digit_word::{WORD, few_digits_at};
use crate::words::Numeral;

// So many digits are read as one number at most.
const MOST_DIGITS: usize = 9;

/// Digits that stand in a text.
#[derive(Clone, Copy)]
pub struct DigitRun {
    /// The number that they write.
    pub value: u64,
    /// The place after the last of them.
    pub end: usize,
}

/// The digits from a place on, at most nine. A further digit may follow.
pub(crate) fn digits_at(text: &[u8], at: usize) -> DigitRun
    requires { at ≤ length text.now }
    ensures range { (at ≤ result.end) × (result.end ≤ length text.now) }
    ensures digits { list_all is_ascii_digit (slice_range text.now at result.end) ≡ true }
    ensures value { result.value ≡ number_after 0 (slice_range text.now at result.end) }
{
    let stop = if text.len() - at > MOST_DIGITS {
        at + MOST_DIGITS
    } else {
        text.len()
    };
    let mut value = 0u64;
    let mut end = at;
    while end < stop {
        let byte = text[end];
        if !byte.is_ascii_digit() {
            break;
        }
        value = value * 10 + u64::from(byte - b'0');
        end += 1;
    }
    DigitRun { value, end }
}

// The same, where the number of digits can't be foretold: few digits are read as one word, which costs less than a
// branch that is guessed wrong.
#[inline(always)]
fn digits_by_word(text: &[u8], at: usize) -> DigitRun
    requires { at ≤ length text.now }
    ensures range { (at ≤ result.end) × (result.end ≤ length text.now) }
    ensures digits { list_all is_ascii_digit (slice_range text.now at result.end) ≡ true }
    ensures value { result.value ≡ number_after 0 (slice_range text.now at result.end) }
{
    if text.len() - at >= WORD {
        if let Some(run) = few_digits_at(text, at) {
            return run;
        }
    }
    digits_at(text, at)
}

/// A line of two numbers.
#[derive(Clone, Copy, Debug, PartialEq, Eq)]
pub struct PlainPair {
    /// The number that stands first.
    pub first: u64,
    /// The number that stands second.
    pub second: u64,
    /// The place after the line feed.
    pub next: usize,
}

/// The two numbers of the line that begins at a place, if it has the plainest form: each of one to nine digits, one
/// space between them, and a line feed behind.
///
/// None says nothing of the line. [`next_filled_line`](crate::next_filled_line) reads any.
pub fn plain_pair(text: &[u8], at: usize) -> Option<PlainPair>
    requires { at ≤ length text.now }
    ensures range { IfSome result (λ pair. (at < pair.next) × (pair.next ≤ length text.now)) }
    ensures lines { IfSome result (λ pair. lines_of (drop at text.now)
        ≡ slice_range text.now at (pair.next - 1) ∷ lines_of (drop pair.next text.now)) }
    ensures filled { IfSome result (λ pair. is_blank (slice_range text.now at (pair.next - 1)) ≡ false) }
    ensures numbers { IfSome result (λ pair. map numeral_of (words_of (slice_range text.now at (pair.next - 1)))
        ≡ Numeral.Value pair.first ∷ Numeral.Value pair.second ∷ []) }
{
    let first = digits_by_word(text, at);
    if first.end == at || first.end == text.len() || text[first.end] != b' ' {
        return None;
    }
    let start = first.end + 1;
    let second = digits_by_word(text, start);
    if second.end == start || second.end == text.len() || text[second.end] != b'\n' {
        return None;
    }
    Some(PlainPair {
        first: first.value,
        second: second.value,
        next: second.end + 1,
    })
}
