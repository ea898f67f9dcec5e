// The words of a line, and the numbers that they write.
ghost use Rattle.std.specs.Prelude.{◌≡◌, ◌↔◌, ◌+◌, ◌*◌, ◌<◌, ◌≤◌, ◌∷◌, [], true, length, take, drop, slice_range, IsNone, IfNone, IfSome, IsTrue};
ghost use Rattle.std.specs.Char.{is_ascii_digit};
ghost use Rattle.std.specs.List.{list_all};
ghost use Rattle.text_lines.specs.Lines.{is_blank};
ghost use Rattle.text_lines.specs.Words.{blank_len, word_len, begins_word, words_of, number_after, numeral_of, IsFirstNumber};

// So many digits write a number of 64 bits.
const FEW_DIGITS: usize = 16;

/// Where a word stands.
#[derive(Clone, Copy, Debug, PartialEq, Eq)]
pub struct WordSpan {
    /// The place of the word's first byte.
    pub start: usize,
    /// The place after the word's last byte.
    pub end: usize,
}

/// What a word is as a number.
#[derive(Clone, Copy, Debug, PartialEq, Eq)]
pub enum Numeral {
    /// The number that the digits write. Leading zeros are allowed.
    Value(u64),
    /// Digits that write a number past 64 bits.
    TooLarge,
    /// No byte, or a byte that is no digit.
    NotDigits,
}

/// The first word from the place `at` on and before `end`; none exactly where only spaces and tabs are left.
///
/// A word is a longest run of bytes other than space and tab. Here it begins at `at` or later, and ends at `end` at the
/// latest.
pub fn next_word(bytes: &[u8], at: usize, end: usize) -> Option<WordSpan>
    requires order { at ≤ end }
    requires within { end ≤ length bytes.now }
    ensures none { IsNone result ↔ IsTrue (is_blank (slice_range bytes.now at end)) }
    ensures start { IfSome result (λ word. word.start ≡ at + blank_len (slice_range bytes.now at end)) }
    ensures end { IfSome result (λ word. word.end ≡ word.start + word_len (slice_range bytes.now word.start end)) }
    ensures range { IfSome result (λ word. (word.start < word.end) × (word.end ≤ end)) }
    ensures nothing { IfNone result (words_of (slice_range bytes.now at end) ≡ []) }
    ensures words { IfSome result (λ word. words_of (slice_range bytes.now at end) ≡ slice_range bytes.now word.start word.end ∷ words_of (slice_range bytes.now word.end end)) }
{
    let start = at + count_blanks(&bytes[at..end]);
    if start == end {
        return None;
    }
    let len = count_word(&bytes[start..end]);
    Some(WordSpan {
        start,
        end: start + len,
    })
}

/// How many spaces and tabs stand at the front.
pub fn count_blanks(bytes: &[u8]) -> usize
    ensures count { result ≡ blank_len bytes.now }
    ensures within { result ≤ length bytes.now }
{
    for (i, b) in bytes.iter().enumerate() {
        if *b != b' ' && *b != b'\t' {
            return i;
        }
    }
    bytes.len()
}

// How many bytes other than spaces and tabs stand at the front.
fn count_word(bytes: &[u8]) -> usize
    ensures count { result ≡ word_len bytes.now }
    ensures within { result ≤ length bytes.now }
{
    for (i, b) in bytes.iter().enumerate() {
        if *b == b' ' || *b == b'\t' {
            return i;
        }
    }
    bytes.len()
}

/// A word of a line as a number.
#[derive(Clone, Copy, Debug, PartialEq, Eq)]
pub struct NumberWord {
    /// What the word is as a number.
    pub number: Numeral,
    /// A place behind the word, from which the later words stand.
    pub next: usize,
}

/// The first word from the place `at` of a line on, as a number; none exactly where no word is left.
///
/// A word of few digits at the place itself is gone over once.
#[inline(always)]
pub fn next_number(line: &[u8], at: usize) -> Option<NumberWord>
    requires { at ≤ length line.now }
    ensures nothing { IfNone result (words_of (drop at line.now) ≡ []) }
    ensures first { IfSome result (λ word.
        IsFirstNumber (words_of (drop at line.now)) word.number (words_of (drop word.next line.now))) }
    ensures range { IfSome result (λ word. (at < word.next) × (word.next ≤ length line.now)) }
{
    if at == line.len() {
        return None;
    }
    match short_number_at(line, at) {
        Some(word) => Some(word),
        None => any_number(line, at),
    }
}

// The first word from a place on as a number, whatever it is.
fn any_number(line: &[u8], at: usize) -> Option<NumberWord>
    requires { at ≤ length line.now }
    ensures nothing { IfNone result (words_of (drop at line.now) ≡ []) }
    ensures first { IfSome result (λ word.
        IsFirstNumber (words_of (drop at line.now)) word.number (words_of (drop word.next line.now))) }
    ensures range { IfSome result (λ word. (at < word.next) × (word.next ≤ length line.now)) }
{
    match next_word(line, at, line.len()) {
        None => None,
        Some(word) => Some(NumberWord {
            number: number(&line[word.start..word.end]),
            next: past_blank(line, word.end),
        }),
    }
}

// The word at a place as a number, if it is few digits.
#[inline(always)]
fn short_number_at(line: &[u8], at: usize) -> Option<NumberWord>
    requires { at ≤ length line.now }
    ensures first { IfSome result (λ word.
        IsFirstNumber (words_of (drop at line.now)) word.number (words_of (drop word.next line.now))) }
    ensures range { IfSome result (λ word. (at < word.next) × (word.next ≤ length line.now)) }
{
    let digits = first_digits(&line[at..]);
    if digits.len == 0 || digits.len > FEW_DIGITS {
        return None;
    }
    let number = Numeral::Value(digits.value);
    let end = at + digits.len;
    if end == line.len() {
        return Some(NumberWord { number, next: end });
    }
    if begins_word(&line[end..]) {
        return None;
    }
    Some(NumberWord {
        number,
        next: end + 1,
    })
}

// The place behind the space or tab that stands at a place, or this place.
fn past_blank(line: &[u8], at: usize) -> usize
    requires { at ≤ length line.now }
    ensures words { words_of (drop result line.now) ≡ words_of (drop at line.now) }
    ensures range { (at ≤ result) × (result ≤ length line.now) }
{
    if at < line.len() && !begins_word(&line[at..]) {
        at + 1
    } else {
        at
    }
}

// Whether a word stands at the front.
fn begins_word(bytes: &[u8]) -> bool
    ensures { result ≡ begins_word bytes.now }
{
    match bytes {
        [] => false,
        [b, ..] => *b != b' ' && *b != b'\t',
    }
}

// Digits at the front of bytes.
#[derive(Clone, Copy)]
struct Digits {
    // The number that they write, if they are few.
    value: u64,
    // How many they are.
    len: usize,
}

// The digits at the front.
fn first_digits(bytes: &[u8]) -> Digits
    ensures digits { list_all is_ascii_digit (take result.len bytes.now) ≡ true }
    ensures value { result.len ≤ FEW_DIGITS → result.value ≡ number_after 0 (take result.len bytes.now) }
    ensures within { result.len ≤ length bytes.now }
{
    let mut value = 0u64;
    for i in 0..bytes.len() {
        let byte = bytes[i];
        if !byte.is_ascii_digit() {
            return Digits { value, len: i };
        }
        value = value.wrapping_mul(10).wrapping_add(u64::from(byte - b'0'));
    }
    Digits {
        value,
        len: bytes.len(),
    }
}

/// The number that a word writes in decimal digits.
pub fn number(word: &[u8]) -> Numeral
    ensures { result ≡ numeral_of word.now }
{
    if word.is_empty() {
        return Numeral::NotDigits;
    }
    if word.len() <= FEW_DIGITS {
        return short_number(word);
    }
    long_number(word)
}

// The number that a word writes that is too short to go past 64 bits.
fn short_number(word: &[u8]) -> Numeral
    requires some { 0 < length word.now }
    requires short { length word.now ≤ FEW_DIGITS }
    ensures { result ≡ numeral_of word.now }
{
    let mut value = 0u64;
    for b in word {
        if !b.is_ascii_digit() {
            return Numeral::NotDigits;
        }
        value = value * 10 + u64::from(*b - b'0');
    }
    Numeral::Value(value)
}

// The number that a word writes, however long it is.
fn long_number(word: &[u8]) -> Numeral
    requires { 0 < length word.now }
    ensures { result ≡ numeral_of word.now }
{
    if !all_digits(word) {
        return Numeral::NotDigits;
    }
    let mut value = 0u64;
    for b in word {
        let digit = u64::from(*b - b'0');
        if value > (u64::MAX - digit) / 10 {
            return Numeral::TooLarge;
        }
        value = value * 10 + digit;
    }
    Numeral::Value(value)
}

/// Whether each byte is one of the digits `0` to `9`.
pub fn all_digits(word: &[u8]) -> bool
    ensures { result ≡ list_all is_ascii_digit word.now }
{
    word.iter().all(|b| b.is_ascii_digit())
}
