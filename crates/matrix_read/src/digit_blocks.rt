// Lines that are digits alone, in blocks of 64 bytes.
ghost use Rattle.std.specs.Prelude.{◌≡◌, ◌+◌, ◌-◌, ◌<◌, ◌≤◌, ◌^◌, ◌==◌, ◌++◌, true, length, map, take, slice_index_or, IfSome};
ghost use Rattle.std.specs.List.{list_all};
ghost use Rattle.std.specs.Simd.Lanes.{chunk, mask_l};
ghost use Rattle.row_model.specs.Rows.{columns_where};
ghost use Rattle.matrix_read.specs.Dense.{is_digit};
ghost use Rattle.matrix_read.specs.BitPlaces.{bit_places};

use crate::bit_places::BitPlaces;
use std::simd::prelude::*;

// How many bytes a block has.
const BLOCK: usize = 64;

// How many bytes a mask of a block has.
const MASK_BYTES: u32 = 8;

/// How many ones a line has, if it is digits alone. Their columns stand at the front of `columns` then.
pub(crate) fn ones_alone(line: &[u8], table: &BitPlaces, columns: &mut [u32]) -> Option<usize>
    requires small { length columns.old < 2 ^ 32 }
    requires room { length line.now ≤ length columns.old }
    ensures digits { IfSome result (λ ones. list_all is_digit line.now ≡ true) }
    ensures columns { IfSome result (λ ones. take ones columns.new
        ≡ columns_where (length line.now) (λ column. slice_index_or line.now (column - 1) 0 == 49)) }
    ensures within { IfSome result (λ ones. ones ≤ length columns.new) }
{
    let mut ones = 0;
    let mut at = 0;
    while line.len() - at >= BLOCK {
        let mask = ones_mask(line, at)?;
        ones = put_ones(mask, at as u32 + 1, table, columns, ones);
        at += BLOCK;
    }
    for j in at..line.len() {
        let digit = line[j].wrapping_sub(b'0');
        if digit > 1 {
            return None;
        }
        columns[ones] = j as u32 + 1;
        ones += usize::from(digit);
    }
    Some(ones)
}

// A bit for each of the 64 bytes from a place on, if they are digits: 1 where the byte is a 1.
#[inline(always)]
fn ones_mask(line: &[u8], at: usize) -> Option<u64>
    requires { at + 64 ≤ length line.now }
    ensures digits { IfSome result (λ mask. list_all is_digit (chunk at 64 line.now) ≡ true) }
    ensures mask { IfSome result (λ mask. mask ≡ mask_l (map (λ byte. byte == 49) (chunk at 64 line.now))) }
{
    let ones = equal_mask(line, at, b'1');
    if equal_mask(line, at, b'0') == !ones {
        Some(ones)
    } else {
        None
    }
}

// A bit for each of the 64 bytes from a place on, which is 1 where the byte is this one.
#[inline(always)]
fn equal_mask(line: &[u8], at: usize, byte: u8) -> u64
    requires { at + 64 ≤ length line.now }
    ensures { result ≡ mask_l (map (λ b. b == byte) (chunk at 64 line.now)) }
{
    u8x64::from_slice(&line[at..])
        .simd_eq(u8x64::splat(byte))
        .to_bitmask()
}

// Writes the columns of the ones of a mask behind so many columns, where `first` is that of its lowest bit. The answer
// is how many columns there are then.
#[inline(always)]
fn put_ones(mask: u64, first: u32, table: &BitPlaces, columns: &mut [u32], count: usize) -> usize
    requires small { first + 64 ≤ 2 ^ 32 }
    requires room { count + 64 ≤ length columns.old }
    ensures columns { take result columns.new ≡ take count columns.old ++ bit_places 64 first mask }
    ensures within { result ≤ count + 64 }
{
    let mut ones = count;
    let mut rest = mask;
    for k in 0..MASK_BYTES {
        ones = table.put((rest % 256) as usize, first + 8 * k, columns, ones);
        rest /= 256;
    }
    ones
}
