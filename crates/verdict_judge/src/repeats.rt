// The first line whose pair stands on an earlier one.
ghost use Rattle.std.specs.Prelude.{ℕ, ◌≤◌, length, IfOk};
ghost use Rattle.text_parts.specs.Grammar.{Fits32};
ghost use Rattle.verdict_judge.specs.NoTests.{PassesPair, PassesRepeat};
ghost use Rattle.verdict_judge.specs.Found.{IsLeastFailing};

use crate::chains::{chains_of, least_in_chain};
use odd_cycle::Marks;
use row_model::{Line, NoMemory};
use std::alloc::Global;

/// The first line, from 1, whose pair stands on an earlier line. The time goes with the number of lines and columns,
/// and each of them takes about 8 bytes at most.
///
/// Lines that are no fewer than the words of 64 bits of a table with a bit for each pair of columns are marked there.
/// Fewer lines are put into chains by the first columns of their pairs.
///
/// # Errors
///
/// `NoMemory`.
pub fn first_repeat(alloc: Global, c: u32, lines: &[Line]) -> Result<Option<u32>, NoMemory>
    requires few { Fits32 (length lines.now) }
    requires pairs { (k : ℕ) → 1 ≤ k → k ≤ length lines.now → PassesPair c lines.now k }
    ensures { IfOk result (IsLeastFailing (PassesRepeat lines.now) (length lines.now)) }
{
    if c as usize * c as usize / 64 <= lines.len() {
        first_repeat_by_table(alloc, c, lines)
    } else {
        first_repeat_by_chains(alloc, c, lines)
    }
}

// The first line, from 1, whose pair stands on an earlier line, by a bit for each pair of columns.
fn first_repeat_by_table(alloc: Global, c: u32, lines: &[Line]) -> Result<Option<u32>, NoMemory>
    requires few { Fits32 (length lines.now) }
    requires pairs { (k : ℕ) → 1 ≤ k → k ≤ length lines.now → PassesPair c lines.now k }
    ensures { IfOk result (IsLeastFailing (PassesRepeat lines.now) (length lines.now)) }
{
    let mut seen = Marks::new(alloc, c, c)?;
    for (i, line) in lines.iter().enumerate() {
        if seen.mark(line.pair.a, line.pair.b) {
            return Ok(Some(i as u32 + 1));
        }
    }
    Ok(None)
}

// The first line, from 1, whose pair stands on an earlier line, by the chains of the first columns.
fn first_repeat_by_chains(alloc: Global, c: u32, lines: &[Line]) -> Result<Option<u32>, NoMemory>
    requires few { Fits32 (length lines.now) }
    requires pairs { (k : ℕ) → 1 ≤ k → k ≤ length lines.now → PassesPair c lines.now k }
    ensures { IfOk result (IsLeastFailing (PassesRepeat lines.now) (length lines.now)) }
{
    let chains = chains_of(alloc, c, lines)?;
    let mut stamps = vec![in alloc; 0; c as usize + 1]?;
    let mut least = lines.len();
    for a in 0..c {
        least = least_in_chain(lines, &chains, a + 1, &mut stamps, least);
    }
    if least < lines.len() {
        return Ok(Some(least as u32 + 1));
    }
    Ok(None)
}
