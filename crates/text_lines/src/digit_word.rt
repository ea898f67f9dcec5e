// Digits that are read as one word of eight bytes.
ghost use Rattle.std.specs.Prelude.{◌≡◌, ◌+◌, ◌-◌, ◌*◌, ◌%◌, ◌<◌, ◌≤◌, ℕ, List, true, length, map, nat_lt, slice_index, slice_range, IfSome};
ghost use Rattle.std.specs.Char.{is_ascii_digit};
ghost use Rattle.std.specs.List.{list_all};
ghost use Rattle.std.specs.Simd.Lanes.{chunk, mask_l, number_l};
ghost use Rattle.text_lines.specs.Words.{number_after};

use crate::plain::DigitRun;
use std::simd::prelude::*;

/// How many bytes a word has.
pub(crate) const WORD: usize = 8;

/// The digits from a place on, if they are one to seven.
#[inline(always)]
pub(crate) fn few_digits_at(text: &[u8], at: usize) -> Option<DigitRun>
    requires { at + 8 ≤ length text.now }
    ensures range { IfSome result (λ run. (at ≤ run.end) × (run.end ≤ length text.now)) }
    ensures digits { IfSome result (λ run. list_all is_ascii_digit (slice_range text.now at run.end) ≡ true) }
    ensures value { IfSome result (λ run. run.value ≡ number_after 0 (slice_range text.now at run.end)) }
{
    let lanes = lanes_at(text, at);
    let len = digits_len(lanes);
    if len == 0 || len > 7 {
        return None;
    }
    let word = word_of(lanes) << (64 - 8 * len);
    Some(DigitRun {
        value: value_of_eight(word),
        end: at + len as usize,
    })
}

// Eight bytes, counted from the digit 0.
#[inline(always)]
fn lanes_at(text: &[u8], at: usize) -> u8x8
    requires { at + 8 ≤ length text.now }
    ensures lanes { result ≡ map (λ byte. (byte + 208) % 256) (chunk at 8 text.now) }
    ensures len { length result ≡ 8 }
{
    u8x8::from_slice(&text[at..]) - u8x8::splat(b'0')
}

// How many of eight bytes, from the first, are digits.
#[inline(always)]
fn digits_len(lanes: u8x8) -> u32
    requires { length lanes ≡ 8 }
    ensures { (k : ℕ) → k < result → slice_index lanes k ≤ 9 }
{
    digit_mask(lanes).trailing_ones()
}

// A bit for each of eight bytes, which is 1 where the byte is a digit.
#[inline(always)]
fn digit_mask(lanes: u8x8) -> u64
    requires { length lanes ≡ 8 }
    ensures mask { result ≡ mask_l (map (λ lane. nat_lt lane 10) lanes) }
    ensures small { result < 256 }
{
    lanes.simd_lt(u8x8::splat(10)).to_bitmask()
}

// Eight bytes as a word, the first as its lowest.
#[inline(always)]
fn word_of(lanes: u8x8) -> u64
    requires { length lanes ≡ 8 }
    ensures { result ≡ number_l 256 lanes }
{
    let words = u64x1::from_le_bytes(lanes).to_array();
    words[0]
}

// The number that eight digits write, where a word has each of them as a byte, the first as its lowest. Each step joins
// neighbours: digits to numbers below 100, these to numbers below 10,000, and these to the number.
#[inline(always)]
fn value_of_eight(word: u64) -> u64
    ensures { (bytes : List ℕ) → length bytes ≡ 8 → list_all is_ascii_digit bytes ≡ true
        → word ≡ number_l 256 (map (λ byte. byte - 48) bytes) → result ≡ number_after 0 bytes }
{
    let pairs = word.wrapping_mul(10).wrapping_add(word >> 8) & 0x00FF_00FF_00FF_00FF;
    let fours = pairs.wrapping_mul(100).wrapping_add(pairs >> 16) & 0x0000_FFFF_0000_FFFF;
    fours.wrapping_mul(10_000).wrapping_add(fours >> 32) % (1 << 32)
}
