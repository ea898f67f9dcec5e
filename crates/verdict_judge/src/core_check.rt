// The judge of the text of a core.
ghost use Rattle.std.specs.Prelude.{◌↔◌, ◌≡◌, ◌≤◌, ℕ, length, map, IsTrue, IfOk, option_map};
ghost use Rattle.std.specs.List.Sorted.{IsNonDecreasing};
ghost use Rattle.core_text.specs.Cores.{AreRowNumbers};
ghost use Rattle.core_text.specs.Told.{IsAmong};
ghost use Rattle.core_text.specs.Texts.{IsInGrammar};
ghost use Rattle.text_parts.specs.Grammar.{Fits32};
ghost use Rattle.verdict_judge.specs.Found.{IsLeastFailing, Finds};
ghost use Rattle.verdict_judge.specs.Core.{line_tests, core_tests, PassesCoreJoin, PassesCore, IsAcceptedCore, FailsCoreFirst, NamesCoreLaw, ToldCoreLaw};
ghost use Rattle.verdict_judge.specs.declared.core_outcome.CoreReason.{CoreReason};
ghost use Rattle.verdict_judge.specs.declared.core_outcome.CoreChecked.TheVariants.{Valid, Invalid};

use crate::core_outcome::{CoreChecked, CoreReason};
use crate::cycle::{first_bad_pair, is_odd_length, next_pair};
use crate::repeats::first_repeat;
use core_text::{CoreText, blame_law};
use others_kept::Others;
use row_model::{Kind, Line, Matrix, NoMemory, Why, joined_by, row_has};
use std::alloc::Global;

/// Judges the text of a core of a matrix: valid exactly where it passes each test, else
/// invalid with the first that fails.
///
/// The text is within the grammar. The orders take a look at each of their columns and at each one of the rows, and
/// about c² looks besides, c being the number of columns, or k(c + f) with k rows of f ones where c is above
/// `MAX_COLUMNS`. No clause says so.
///
/// # Errors
///
/// `NoMemory`.
pub fn check_core(
    alloc: Global,
    m: &Matrix,
    kind: Kind,
    t: &CoreText,
) -> Result<CoreChecked, NoMemory>
    requires { IsInGrammar t.now }
    ensures valid { IfOk result (λ checked. (checked ≡ Valid) ↔ IsAcceptedCore m.now kind t.now) }
    ensures invalid { IfOk result (λ checked. (r : CoreReason) → (checked ≡ Invalid r) ↔ FailsCoreFirst m.now kind t.now r) }
{
    match core_fault(alloc, m, kind, t)? {
        None => Ok(CoreChecked::Valid),
        Some(reason) => Ok(CoreChecked::Invalid(reason)),
    }
}

/// A text of a core that is accepted names a core of the matrix, and what is told of a core is accepted.
pub fn core_laws()
    ensures names { NamesCoreLaw }
    ensures told { ToldCoreLaw }
{
    blame_law();
}

// The first test that the text fails.
fn core_fault(
    alloc: Global,
    m: &Matrix,
    kind: Kind,
    t: &CoreText,
) -> Result<Option<CoreReason>, NoMemory>
    requires { IsInGrammar t.now }
    ensures { IfOk result (Finds (PassesCore m.now kind t.now) (core_tests t.now)) }
{
    if !is_kind(t.kind(), kind) {
        return Ok(Some(CoreReason::Kind));
    }
    if t.columns() != m.columns() {
        return Ok(Some(CoreReason::Columns));
    }
    if !are_row_numbers(m.rows(), t.rows()) {
        return Ok(Some(CoreReason::Rows));
    }
    if let Some(k) = first_bad_order(alloc, m, t)? {
        return Ok(Some(CoreReason::Order(k)));
    }
    lines_fault(alloc, m, kind, t)
}

// Whether this is the kind.
fn is_kind(found: Kind, kind: Kind) -> bool
    ensures { IsTrue result ↔ (found ≡ kind) }
{
    found == kind
}

// Whether these are numbers of 1 to `count` in strictly ascending order.
fn are_row_numbers(count: u32, rows: &[u32]) -> bool
    ensures { IsTrue result ↔ AreRowNumbers count rows.now }
{
    let mut low = 0;
    for k in rows {
        if *k <= low || *k > count {
            return false;
        }
        low = *k;
    }
    true
}

// The first row whose order is not valid for the others.
fn first_bad_order(alloc: Global, m: &Matrix, t: &CoreText) -> Result<Option<u32>, NoMemory>
    requires grammar { IsInGrammar t.now }
    requires rows { AreRowNumbers (length m.now.rows) t.now.parts.rows }
    ensures { IfOk result (λ found. (kind : Kind) → Finds (PassesCore m.now kind t.now) (map CoreReason.Order t.now.parts.rows) (option_map CoreReason.Order found)) }
{
    let rows = t.rows();
    if rows.is_empty() {
        return Ok(None);
    }
    let others = Others::new(alloc, m, rows, t.order(1))?;
    for (i, k) in rows.iter().enumerate() {
        if !others.are_kept(alloc, m, rows, i, t.order(i as u32 + 1))? {
            return Ok(Some(*k));
        }
    }
    Ok(None)
}

// The first test that the lines of the cycle fail.
fn lines_fault(
    alloc: Global,
    m: &Matrix,
    kind: Kind,
    t: &CoreText,
) -> Result<Option<CoreReason>, NoMemory>
    requires grammar { IsInGrammar t.now }
    requires rows { AreRowNumbers (length m.now.rows) t.now.parts.rows }
    ensures { IfOk result (Finds (PassesCore m.now kind t.now) (line_tests (length t.now.parts.lines))) }
{
    let lines = t.lines();
    if !is_odd_length(lines) {
        return Ok(Some(CoreReason::Length(lines.len() as u32)));
    }
    if let Some(i) = first_bad_pair(m.columns(), lines) {
        return Ok(Some(CoreReason::Pair(i)));
    }
    if let Some(i) = first_repeat(alloc, m.columns(), lines)? {
        return Ok(Some(CoreReason::Repeat(i)));
    }
    if let Some(i) = first_bad_join(m, t.rows(), lines) {
        return Ok(Some(CoreReason::Join(i)));
    }
    Ok(None)
}

// The first line, from 1, whose reason is no flip and none of the rows, or does not join its pair to that of the next
// line, the last line's to that of the first.
fn first_bad_join(m: &Matrix, rows: &[u32], lines: &[Line]) -> Option<u32>
    requires few { Fits32 (length lines.now) }
    requires rows { AreRowNumbers (length m.now.rows) rows.now }
    ensures { IsLeastFailing (PassesCoreJoin m.now rows.now lines.now) (length lines.now) result }
{
    for (i, line) in lines.iter().enumerate() {
        if !is_among(rows, line.why) || !joined_by(m, line.pair, next_pair(lines, i), line.why) {
            return Some(i as u32 + 1);
        }
    }
    None
}

// Whether the reason is a flip or one of the rows.
fn is_among(rows: &[u32], why: Why) -> bool
    requires { IsNonDecreasing rows.now }
    ensures { IsTrue result ↔ IsAmong rows.now why }
{
    match why {
        Why::Flip => true,
        Why::Row(k) => row_has(rows, k),
    }
}
