// Lines of digits that are read in pieces.
ghost use Rattle.std.specs.Prelude.{◌≡◌, ◌+◌, ◌^◌, ◌<◌, ◌≤◌, ℕ, List, [], ◌++◌, length, Option, IfOk};
ghost use Rattle.text_lines.specs.Lines.{lines_of, filled_lines};
ghost use Rattle.matrix_read.specs.DenseSteps.{read_lines};
ghost use Rattle.matrix_read.specs.DigitRows.{lines_then, read_digits_then};

use crate::dense::{Front, front_of};
use crate::digit_rows::{DigitRows, LinesRead};
use crate::rows::refused;
use row_model::{Matrix, NoMemory, Read, code};
use std::alloc::Global;

/// What was read, and behind it the lines of a text, where `passed` lines stand before these.
pub(crate) fn further(
    alloc: Global,
    rows: Option<Read<DigitRows>>,
    text: &[u8],
    passed: u32,
) -> Result<LinesRead, NoMemory>
    requires few { passed + length text.now < 2 ^ 32 }
    ensures rows { IfOk result (λ read. (later : List (List ℕ)) → lines_then read.passed read.rows later
        ≡ lines_then passed rows (lines_of text.now ++ later)) }
    ensures within { IfOk result (λ read. read.passed ≤ passed + length text.now) }
{
    match rows {
        None => first_lines(alloc, text, passed),
        Some(Read::Ok(rows)) => rows.with_lines(text, passed),
        Some(Read::Refused(refusal)) => Ok(LinesRead {
            passed,
            rows: Some(Read::Refused(refusal)),
        }),
    }
}

// The same, where no row was read yet.
fn first_lines(alloc: Global, text: &[u8], passed: u32) -> Result<LinesRead, NoMemory>
    requires few { passed + length text.now < 2 ^ 32 }
    ensures rows { IfOk result (λ read. (later : List (List ℕ)) → lines_then read.passed read.rows later
        ≡ read_lines (filled_lines (passed + 1) (lines_of text.now ++ later))) }
    ensures within { IfOk result (λ read. read.passed ≤ passed + length text.now) }
{
    match front_of(text, passed) {
        Err(refusal) => Ok(LinesRead {
            passed,
            rows: Some(Read::Refused(refusal)),
        }),
        Ok(Front::NoRow(passed)) => Ok(LinesRead { passed, rows: None }),
        Ok(Front::Row(first)) => {
            let rows = DigitRows::new(alloc, first.width, text.len())?;
            rows.with_lines(&text[first.start..], first.passed)
        }
    }
}

/// The matrix of all that was read, or its first refusal.
pub(crate) fn matrix_read(rows: Option<Read<DigitRows>>) -> Read<Matrix>
    ensures { (passed : ℕ) → result ≡ lines_then passed rows [] }
{
    match rows {
        None => refused(code::EMPTY, 0),
        Some(rows) => matrix_of(rows),
    }
}

// The matrix of rows that were read.
fn matrix_of(read: Read<DigitRows>) -> Read<Matrix>
    ensures { (passed : ℕ) → result ≡ read_digits_then passed read [] }
{
    match read {
        Read::Ok(rows) => {
            let DigitRows { matrix, .. } = rows;
            Read::Ok(matrix)
        }
        Read::Refused(refusal) => Read::Refused(refusal),
    }
}
