// A file whole, or handed on piece by piece.
ghost use Rattle.std.specs.Prelude.{◌≡◌, ◌≤◌, ◌+◌, ◌^◌, ℕ, List, ◌++◌, take, drop, length, vec_len, IfOk, OnErr, IfSome, IsTrue};
ghost use Rattle.std.specs.Io.KnownBytes.{Consumes, IsAtEnd, Keeps};
ghost use Rattle.file_io.specs.Whole.{IsWhole, IsAtMost, LeavesNone, HasReadCause, ChangedOnlyIfFault, HandsOutWhole};
ghost use Rattle.file_io.specs.Taken.{HandsOutPiece};
ghost use Rattle.file_io.specs.Through.{HandsOutThrough};

use crate::{NoMemory, ReadFail, Shelf, Taker};
use std::alloc::Global;

/// What a file held.
#[derive(Debug, PartialEq, Eq, Drop)]
pub enum Whole {
    /// All its bytes.
    Bytes(Vec<u8>),
    /// More bytes than the limit came.
    TooLong,
}

// The least and the greatest room that is made for one read, in bytes.
const LEAST_PIECE: usize = 16 * 1024;

const GREATEST_PIECE: usize = 64 * 1024;

// How many bytes are gathered before a taker is asked, unless it left many.
const WINDOW: usize = 128 * 1024;

/// Reads what is left of the chosen file, unless it is more than `limit` bytes. The file stays chosen.
///
/// # Errors
///
/// `Fault` where a read failed, and `NoMemory`. Some bytes may have been read then.
pub fn read_all<F: Shelf>(alloc: Global, shelf: &mut F, limit: u64) -> Result<Whole, ReadFail>
    requires limit { limit ≤ 2 ^ 32 }
    requires chosen { IsTrue (F.has_chosen shelf.old) }
    ensures whole { IfOk result (λ whole. IfSome (F.left shelf.old) (λ bytes. IsWhole limit bytes whole)) }
    ensures within { IfOk result (IsAtMost limit) }
    ensures end { IfOk result (LeavesNone (F.left shelf.new)) }
    ensures cause { HasReadCause (F.faults shelf.old) (F.faults shelf.new) result }
    ensures told { ChangedOnlyIfFault (F.faults shelf.old) (F.faults shelf.new) result }
    ensures chosen { IsTrue (F.has_chosen shelf.new) }
    ensures taken { HandsOutWhole limit (F.left shelf.old) (F.left shelf.new) (F.taken shelf.old) (F.taken shelf.new) result }
    ensures content { (other : List ℕ) → F.content shelf.new other ≡ F.content shelf.old other }
{
    let mut bytes = Vec::new(alloc);
    let mut filled = 0;
    while filled as u64 <= limit {
        let n = read_on(shelf, &mut bytes, filled)?;
        if n == 0 {
            bytes.truncate(filled);
            bytes.shrink_to_fit();
            return Ok(Whole::Bytes(bytes));
        }
        filled += n;
    }
    Ok(Whole::TooLong)
}

/// Hands what is left of the chosen file to a taker, piece by piece, unless it is more than `limit` bytes: what the taker
/// makes of it, or none where it is more. The file stays chosen.
///
/// It keeps a window of the file alone. The window grows where the taker takes little of it.
///
/// # Errors
///
/// `Fault` where a read failed, and `NoMemory`. Some bytes may have been read then.
pub fn read_through<F: Shelf, T: Taker>(
    alloc: Global,
    shelf: &mut F,
    limit: u64,
    taker: T,
) -> Result<Option<T::Made>, ReadFail>
    requires limit { limit ≤ 2 ^ 32 }
    requires chosen { IsTrue (F.has_chosen shelf.old) }
    ensures cause { HasReadCause (F.faults shelf.old) (F.faults shelf.new) result }
    ensures told { ChangedOnlyIfFault (F.faults shelf.old) (F.faults shelf.new) result }
    ensures chosen { IsTrue (F.has_chosen shelf.new) }
    ensures taken { HandsOutThrough limit (T.makes taker) (F.left shelf.old) (F.left shelf.new) (F.taken shelf.old) (F.taken shelf.new) result }
    ensures content { (other : List ℕ) → F.content shelf.new other ≡ F.content shelf.old other }
{
    let mut taker = taker;
    let mut window = Vec::new(alloc);
    let mut filled = 0;
    let mut full = WINDOW;
    let mut total = 0;
    while total <= limit {
        let n = read_on(shelf, &mut window, filled)?;
        if n == 0 {
            return Ok(Some(taker.finish(alloc, &window[..filled])?));
        }
        filled += n;
        total += n as u64;
        if filled >= full {
            let (next, left) = hand_over(alloc, taker, &mut window, filled)?;
            taker = next;
            filled = left;
            full = WINDOW.max(2 * filled);
        }
    }
    Ok(None)
}

// The taker after it was offered the filled front of a window, and how many bytes it left. They stand at the front then.
fn hand_over<T: Taker>(
    alloc: Global,
    taker: T,
    window: &mut [u8],
    filled: usize,
) -> Result<(T, usize), NoMemory>
    requires { filled ≤ length window.old }
    ensures left { IfOk result (λ over. over.1 ≤ filled) }
    ensures makes { IfOk result (λ over. (rest : List ℕ) (made : T.Made)
        → T.makes over.0 (take over.1 window.new ++ rest) made → T.makes taker (take filled window.old ++ rest) made) }
{
    let (next, taken) = taker.take(alloc, &window[..filled])?;
    window.copy_within(taken..filled, 0);
    Ok((next, filled - taken))
}

// One read, to behind the filled front of `bytes`. What room an earlier read left serves again. Where it
// left none, as much more is made by zeros as is filled, within the bounds of a piece: each page that is
// touched for the first time costs.
fn read_on<F: Shelf>(shelf: &mut F, bytes: &mut Vec<u8>, filled: usize) -> Result<usize, ReadFail>
    requires filled { filled ≤ vec_len bytes.old }
    requires small { filled ≤ 2 ^ 32 }
    requires chosen { IsTrue (F.has_chosen shelf.old) }
    ensures front { take filled bytes.new.items ≡ take filled bytes.old.items }
    ensures room { IfOk result (λ n. filled + n ≤ vec_len bytes.new) }
    ensures read { IfOk result (λ n. Consumes (F.left shelf.old) (F.left shelf.new) (take n (drop filled bytes.new.items))) }
    ensures end { IfOk result (λ n. n ≡ 0 → IsAtEnd (F.left shelf.new)) }
    ensures kept { OnErr result (Keeps (F.left shelf.old) (F.left shelf.new)) }
    ensures cause { HasReadCause (F.faults shelf.old) (F.faults shelf.new) result }
    ensures told { ChangedOnlyIfFault (F.faults shelf.old) (F.faults shelf.new) result }
    ensures chosen { IsTrue (F.has_chosen shelf.new) }
    ensures taken { HandsOutPiece filled (F.taken shelf.old) (F.taken shelf.new) result bytes.new.items }
    ensures content { (other : List ℕ) → F.content shelf.new other ≡ F.content shelf.old other }
{
    if filled == bytes.len() {
        let piece = filled.max(LEAST_PIECE).min(GREATEST_PIECE);
        bytes.resize(filled + piece, 0)?;
    }
    let n = shelf.read(&mut bytes[filled..])?;
    Ok(n)
}
