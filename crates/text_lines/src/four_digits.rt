// Digits that are read as one word of four bytes.
ghost use Rattle.std.specs.Prelude.{◌≡◌, ◌+◌, ◌*◌, ◌%◌, ◌≤◌, ℕ, true, length, map, slice_range};
ghost use Rattle.std.specs.Char.{is_ascii_digit};
ghost use Rattle.std.specs.List.{list_all};
ghost use Rattle.std.specs.Simd.Lanes.{chunk, number_l};
ghost use Rattle.text_lines.specs.Words.{number_after};

use std::simd::prelude::*;

/// How many bytes a word has.
pub(crate) const FOUR: usize = 4;

/// The number that the digits between two places write, which are four at most.
#[inline(always)]
pub(crate) fn few_digits(text: &[u8], at: usize, end: usize) -> u64
    requires room { at + 4 ≤ length text.now }
    requires few { (at ≤ end) × (end ≤ at + 4) }
    requires digits { list_all is_ascii_digit (slice_range text.now at end) ≡ true }
    ensures { result ≡ number_after 0 (slice_range text.now at end) }
{
    let moved = u64::from(word_at(text, at)) << (32 - 8 * (end - at) as u32);
    u64::from(value_of_four((moved % (1 << 32)) as u32))
}

// Four bytes as a word, the first as its lowest, each counted from the digit 0.
#[inline(always)]
fn word_at(text: &[u8], at: usize) -> u32
    requires { at + 4 ≤ length text.now }
    ensures { result ≡ number_l 256 (map (λ byte. (byte + 208) % 256) (chunk at 4 text.now)) }
{
    let lanes = u8x4::from_slice(&text[at..]) - u8x4::splat(b'0');
    let words = u32x1::from_le_bytes(lanes).to_array();
    words[0]
}

// The number that four digits write, where a word has each of them as a byte, the first as its lowest. The first step
// joins neighbours to numbers below 100, and the second joins these.
#[inline(always)]
fn value_of_four(word: u32) -> u32
    ensures { (a b c d : ℕ) → a ≤ 9 → b ≤ 9 → c ≤ 9 → d ≤ 9
        → word ≡ a + 256 * (b + 256 * (c + 256 * d)) → result ≡ ((a * 10 + b) * 10 + c) * 10 + d }
{
    let pairs = (word.wrapping_mul(10 * 256 + 1) >> 8) & 0x00FF_00FF;
    pairs.wrapping_mul(100 * 65_536 + 1) >> 16
}
