// Digits whose ends are found in blocks of 64 bytes.
ghost use Rattle.std.specs.Prelude.{◌≡◌, ◌≢◌, ◌+◌, ◌%◌, ◌<◌, ◌≤◌, ℕ, List, length, map, nat_le};
ghost use Rattle.std.specs.Int.{bit_at, trailing_zeros, w64};
ghost use Rattle.std.specs.Simd.Lanes.{chunk, mask_l};
ghost use Rattle.text_lines.specs.DigitEnds.{AreDigitEnds, AreNextDigits};

use crate::four_digits::{FOUR, few_digits};
use crate::plain::{DigitRun, digits_at};
use std::simd::prelude::*;

// How many bytes a block has.
const BLOCK: usize = 64;

/// Marks in a block of 64 bytes of a text, which tell where digits end.
#[derive(Clone, Copy)]
pub struct DigitEnds {
    /// The place where the block begins.
    pub block: usize,
    /// A bit for each byte of the block, the lowest for the first. Before one that is 1, the bytes ahead with 0 are digits.
    pub marks: u64,
}

impl DigitEnds {
    /// No mark.
    pub fn none() -> DigitEnds
        ensures { (text : List ℕ) → (at : ℕ) → AreDigitEnds text at result.block result.marks }
    {
        DigitEnds { block: 0, marks: 0 }
    }
}

/// Digits that stand in a text, and marks that tell where those behind them end.
#[derive(Clone, Copy)]
pub struct EndedRun {
    /// The digits.
    pub run: DigitRun,
    /// The marks.
    pub ends: DigitEnds,
}

/// Digits from a place on, or none. A further digit may follow.
///
/// The marks are none, or those that the call before gave, where this place is behind the byte at the end of its digits.
#[inline(always)]
pub fn next_digits(text: &[u8], at: usize, ends: DigitEnds) -> EndedRun
    requires at { at ≤ length text.now }
    requires ends { AreDigitEnds text.now at ends.block ends.marks }
    ensures { AreNextDigits text.now at result.run.value result.run.end result.ends.block result.ends.marks }
{
    if ends.marks != 0 {
        return marked_digits(text, at, ends);
    }
    if text.len() - at < BLOCK + FOUR {
        return unmarked_digits(text, at);
    }
    marked_digits(text, at, block_ends(text, at))
}

// The same. Where marks tell that the digits are few, these are read as one word.
#[inline(always)]
fn marked_digits(text: &[u8], at: usize, ends: DigitEnds) -> EndedRun
    requires at { at ≤ length text.now }
    requires ends { AreDigitEnds text.now at ends.block ends.marks }
    ensures { AreNextDigits text.now at result.run.value result.run.end result.ends.block result.ends.marks }
{
    if ends.marks != 0 {
        let end = ends.block + ends.marks.trailing_zeros() as usize;
        if end - at <= FOUR {
            return EndedRun {
                run: DigitRun {
                    value: few_digits(text, at, end),
                    end,
                },
                ends: DigitEnds {
                    block: ends.block,
                    marks: without_lowest(ends.marks),
                },
            };
        }
    }
    unmarked_digits(text, at)
}

// The same, byte by byte, and no marks.
fn unmarked_digits(text: &[u8], at: usize) -> EndedRun
    requires { at ≤ length text.now }
    ensures { AreNextDigits text.now at result.run.value result.run.end result.ends.block result.ends.marks }
{
    EndedRun {
        run: digits_at(text, at),
        ends: DigitEnds::none(),
    }
}

// The marks of the block that begins at a place.
#[inline(always)]
fn block_ends(text: &[u8], at: usize) -> DigitEnds
    requires { at + 68 ≤ length text.now }
    ensures { AreDigitEnds text.now at result.block result.marks }
{
    DigitEnds {
        block: at,
        marks: other_marks(text, at),
    }
}

// A bit for each of the 64 bytes from a place on, which is 1 where the byte is no digit.
#[inline(always)]
fn other_marks(text: &[u8], at: usize) -> u64
    requires { at + 64 ≤ length text.now }
    ensures { result ≡ mask_l (map (λ byte. nat_le 10 ((byte + 208) % 256)) (chunk at 64 text.now)) }
{
    large_lanes(u8x64::from_slice(&text[at..]) - u8x64::splat(b'0'))
}

// A bit for each of 64 lanes, which is 1 where the lane is 10 or more.
#[inline(always)]
fn large_lanes(lanes: u8x64) -> u64
    requires { length lanes ≡ 64 }
    ensures { result ≡ mask_l (map (λ lane. nat_le 10 lane) lanes) }
{
    lanes.simd_ge(u8x64::splat(10)).to_bitmask()
}

// Marks without the lowest.
#[inline(always)]
fn without_lowest(marks: u64) -> u64
    requires { 0 < marks }
    ensures lowest { bit_at result (trailing_zeros w64 marks) ≡ 0 }
    ensures others { (k : ℕ) → k ≢ trailing_zeros w64 marks → bit_at result k ≡ bit_at marks k }
{
    marks & (marks - 1)
}
