// Words as numbers, and the one or two numbers of a line.
ghost use Rattle.std.specs.Prelude.{◌≡◌, ◌≤◌, IfOk};
ghost use Rattle.text_lines.specs.Words.{words_of};
ghost use Rattle.graph_read.specs.Numbers.{is_number, is_zero, is_past, is_within, value_of, both_numbers, two_numbers, if_number, one_number, size_named};

use row_model::code;
use text_lines::{Numeral, next_number};

/// Two numbers that stand in a line, each of digits.
#[derive(Clone, Copy)]
pub struct NumberPair {
    /// The first number.
    pub first: Numeral,
    /// The second number.
    pub second: Numeral,
}

/// The two numbers of a line that is exactly two words of digits.
pub fn two_numbers(line: &[u8]) -> Option<NumberPair>
    ensures { result ≡ two_numbers (words_of line.now) }
{
    let Some(a) = next_number(line, 0) else {
        return None;
    };
    let Some(b) = next_number(line, a.next) else {
        return None;
    };
    match next_number(line, b.next) {
        Some(_) => None,
        None => both_numbers(a.number, b.number),
    }
}

// Two words as numbers, if both are digits.
fn both_numbers(first: Numeral, second: Numeral) -> Option<NumberPair>
    ensures { result ≡ both_numbers first second }
{
    if is_number(first) && is_number(second) {
        Some(NumberPair { first, second })
    } else {
        None
    }
}

/// The number of a line that is exactly one word of digits.
pub fn one_number(line: &[u8]) -> Option<Numeral>
    ensures { result ≡ one_number (words_of line.now) }
{
    let Some(a) = next_number(line, 0) else {
        return None;
    };
    match next_number(line, a.next) {
        Some(_) => None,
        None => if_number(a.number),
    }
}

/// The number of such a line, if it is from 1 to a limit, or the code of its refusal.
pub fn size_in(limit: u32, line: &[u8]) -> Result<u32, u8>
    ensures size { result ≡ size_named limit (one_number (words_of line.now)) }
    ensures range { IfOk result (λ n. (1 ≤ n) × (n ≤ limit)) }
{
    let Some(number) = one_number(line) else {
        return Err(code::GRAMMAR);
    };
    if is_zero(number) {
        return Err(code::RANGE);
    }
    if is_past(limit, number) {
        return Err(code::LIMIT);
    }
    Ok(value_of(number) as u32)
}

// A word as a number, if it is digits.
fn if_number(numeral: Numeral) -> Option<Numeral>
    ensures { result ≡ if_number numeral }
{
    if is_number(numeral) {
        Some(numeral)
    } else {
        None
    }
}

// Whether a word is digits.
fn is_number(numeral: Numeral) -> bool
    ensures { result ≡ is_number numeral }
{
    !matches!(numeral, Numeral::NotDigits)
}

/// Whether a number is 0.
pub fn is_zero(numeral: Numeral) -> bool
    ensures { result ≡ is_zero numeral }
{
    matches!(numeral, Numeral::Value(0))
}

/// Whether a number is past a limit.
pub fn is_past(limit: u32, numeral: Numeral) -> bool
    ensures { result ≡ is_past limit numeral }
{
    match numeral {
        Numeral::Value(n) => n > u64::from(limit),
        Numeral::TooLarge => true,
        Numeral::NotDigits => false,
    }
}

/// Whether a number is one of 1 to `n`.
pub fn is_within(n: u32, numeral: Numeral) -> bool
    ensures { result ≡ is_within n numeral }
{
    !is_zero(numeral) && !is_past(n, numeral)
}

/// A number of 64 bits.
pub fn value_of(numeral: Numeral) -> u64
    ensures { result ≡ value_of numeral }
{
    match numeral {
        Numeral::Value(n) => n,
        _ => 0,
    }
}
