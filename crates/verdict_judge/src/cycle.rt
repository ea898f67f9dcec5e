// The tests of a no, on the lines of its cycle.
ghost use Rattle.std.specs.Prelude.{◌↔◌, ◌≡◌, ◌+◌, ◌*◌, ◌<◌, ◌≤◌, length, IsTrue, IfOk};
ghost use Rattle.row_model.specs.declared.graph.Pair.{Pair};
ghost use Rattle.text_parts.specs.Grammar.{Fits32};
ghost use Rattle.verdict_judge.specs.Tests.{no_tests};
ghost use Rattle.verdict_judge.specs.NoTests.{pair_after, PassesLength, PassesPair, PassesJoin, PassesNo};
ghost use Rattle.verdict_judge.specs.Found.{IsLeastFailing, Finds};

use crate::outcome::Reason;
use crate::repeats::first_repeat;
use row_model::{CountedRows, Line, Matrix, NoMemory, Pair, is_pair};
use std::alloc::Global;
use step_count::{Ledger, Steps};

/// The first test that the lines fail as an odd cycle of the matrix. Each look at a row is a step, and a line takes at
/// most three.
///
/// # Errors
///
/// `NoMemory`.
pub fn cycle_fault<L: Ledger>(
    alloc: Global,
    m: &Matrix,
    lines: &[Line],
    steps: &mut Steps<L>,
) -> Result<Option<Reason>, NoMemory>
    requires { Fits32 (length lines.now) }
    ensures finds { IfOk result (Finds (PassesNo m.now lines.now) (no_tests (length lines.now))) }
    ensures ticks { steps.new ≤ steps.old + 3 * length lines.now }
{
    if !is_odd_length(lines) {
        return Ok(Some(Reason::Length(lines.len() as u32)));
    }
    if let Some(i) = first_bad_pair(m.columns(), lines) {
        return Ok(Some(Reason::Pair(i)));
    }
    if let Some(i) = first_repeat(alloc, m.columns(), lines)? {
        return Ok(Some(Reason::Repeat(i)));
    }
    if let Some(i) = first_unjoined(&CountedRows::new(m), lines, steps) {
        return Ok(Some(Reason::Join(i)));
    }
    Ok(None)
}

/// Whether the number of lines is odd and at least 3.
pub fn is_odd_length(lines: &[Line]) -> bool
    ensures { IsTrue result ↔ PassesLength lines.now }
{
    lines.len() % 2 == 1 && lines.len() >= 3
}

/// The first line, from 1, that has not two distinct columns of 1 to c.
pub fn first_bad_pair(c: u32, lines: &[Line]) -> Option<u32>
    requires { Fits32 (length lines.now) }
    ensures { IsLeastFailing (PassesPair c lines.now) (length lines.now) result }
{
    for (i, line) in lines.iter().enumerate() {
        if !is_pair(c, line.pair) {
            return Some(i as u32 + 1);
        }
    }
    None
}

// The first line, from 1, whose reason does not join its pair to that of the next line, the
// last line's to that of the first.
fn first_unjoined<L: Ledger>(m: &CountedRows, lines: &[Line], steps: &mut Steps<L>) -> Option<u32>
    requires { Fits32 (length lines.now) }
    ensures least { IsLeastFailing (PassesJoin m.now lines.now) (length lines.now) result }
    ensures ticks { steps.new ≤ steps.old + 3 * length lines.now }
{
    for (i, line) in lines.iter().enumerate() {
        if !m.joined_counted(line.pair, next_pair(lines, i), line.why, steps) {
            return Some(i as u32 + 1);
        }
    }
    None
}

/// The pair of the line after the one at an index, and that of the first line after the last.
pub fn next_pair(lines: &[Line], i: usize) -> Pair
    requires { i < length lines.now }
    ensures { (other : Pair) → result ≡ pair_after lines.now (i + 1) other }
{
    match lines.get(i + 1) {
        Some(next) => next.pair,
        None => lines[0].pair,
    }
}
