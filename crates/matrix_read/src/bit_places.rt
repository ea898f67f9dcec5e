// The places of the ones of a byte, from a table.
ghost use Rattle.std.specs.Prelude.{◌≡◌, ◌+◌, ◌*◌, ◌<◌, ◌≤◌, ◌^◌, ◌%◌, ◌++◌, ℕ, length, map, take};
ghost use Rattle.std.specs.Simd.Lanes.{chunk};
ghost use Rattle.matrix_read.specs.BitPlaces.{bit_places, ListsOnes};

use std::simd::prelude::*;

// How many bits a byte has.
const BITS: usize = 8;

// How many bytes there are.
const BYTES: usize = 256;

// How many bits all bytes have.
const ENTRIES: usize = 2048;

/// For each byte the places of its bits that are 1, from the lowest bit up, which has place 0.
#[derive(Drop)]
pub(crate) struct BitPlaces {
    // Eight entries for each byte, at the front of which these places are.
    places: [u8; ENTRIES],
    // How many these are.
    counts: [u8; BYTES],
    ghost listed: { (byte : ℕ) → byte < 256 → ListsOnes places counts byte },
}

impl BitPlaces {
    /// The table.
    pub(crate) fn new() -> BitPlaces {
        let mut places = [0u8; ENTRIES];
        let mut counts = [0u8; BYTES];
        for byte in 1..BYTES {
            list_byte(byte, &mut places, &mut counts);
        }
        BitPlaces { places, counts }
    }

    /// Writes the places of a byte's ones behind so many columns, where that of the lowest bit is `first`. The answer
    /// is how many columns there are then. Up to eight entries behind these are written too.
    #[inline(always)]
    pub(crate) fn put(&self, byte: usize, first: u32, columns: &mut [u32], count: usize) -> usize
        requires byte { byte < 256 }
        requires small { first + 8 ≤ 2 ^ 32 }
        requires room { count + 8 ≤ length columns.old }
        ensures columns { take result columns.new ≡ take count columns.old ++ bit_places 8 first byte }
        ensures within { result ≤ count + 8 }
    {
        moved(&self.places, BITS * byte, first).copy_to_slice(&mut columns[count..]);
        count + self.counts[byte] as usize
    }
}

// Lists the places of a byte's ones, where those of all lower bytes are listed: they are those of the byte without its
// highest one, and that one.
fn list_byte(byte: usize, places: &mut [u8], counts: &mut [u8])
    requires byte { (1 ≤ byte) × (byte < 256) }
    requires places { length places.old ≡ 2048 }
    requires counts { length counts.old ≡ 256 }
    requires lower { (b : ℕ) → b < byte → ListsOnes places.old counts.old b }
    ensures { (b : ℕ) → b < byte + 1 → ListsOnes places.new counts.new b }
{
    let top = byte.ilog2();
    let low = byte - (1 << top);
    let count = counts[low];
    u8x8::from_slice(&places[BITS * low..]).copy_to_slice(&mut places[BITS * byte..]);
    places[BITS * byte + count as usize] = top as u8;
    counts[byte] = count + 1;
}

// Eight entries, counted from another place.
#[inline(always)]
fn moved(places: &[u8], at: usize, first: u32) -> u32x8
    requires { at + 8 ≤ length places.now }
    ensures { result ≡ map (λ place. (place + first) % 2 ^ 32) (chunk at 8 places.now) }
{
    u8x8::from_slice(&places[at..]).cast::<u32>() + u32x8::splat(first)
}
