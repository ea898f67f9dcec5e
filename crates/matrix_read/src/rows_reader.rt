// A matrix as lines that name columns, read in pieces.
ghost use Rattle.std.specs.Prelude.{◌≡◌, ◌+◌, ◌≤◌, ℕ, List, [], ◌++◌, drop, length, IsFalse, IfOk};
ghost use Rattle.column_order.specs.Orders.{has};
ghost use Rattle.row_model.specs.declared.TheConstants.{MAX_FILE_BYTES};
ghost use Rattle.text_lines.specs.Lines.{lines_of};
ghost use Rattle.text_lines.specs.Rows.{numbered_lines};
ghost use Rattle.matrix_read.specs.Sparse.{sparse};
ghost use Rattle.matrix_read.specs.SparseSteps.{sparse_lines};
ghost use Rattle.matrix_read.specs.NamedRows.{rows_with, begun_then, read_then};

use crate::named_rows::NamedRows;
use crate::rows::refused;
use crate::sparse::width_given;
use row_model::{MAX_FILE_BYTES, Matrix, NoMemory, Read, Refusal, code};
use std::alloc::Global;
use text_lines::{next_line, unmarked_part, whole_len};

/// The reader of [`read_rows`](crate::read_rows) over a text of at most [`MAX_FILE_BYTES`] bytes that comes in pieces.
///
/// The memory that is written is that of the matrix and of one row. Room is asked for by the bytes at hand: up to three
/// bytes for each of them.
#[derive(Drop)]
pub struct RowsReader {
    is_begun: bool,
    rows: Option<Read<NamedRows>>,
}

impl RowsReader {
    /// A reader that has read nothing.
    pub fn new() -> Self
        ensures { (bytes : List ℕ) → length bytes ≤ MAX_FILE_BYTES → rows_with result bytes ≡ sparse bytes }
    {
        RowsReader {
            is_begun: false,
            rows: None,
        }
    }

    /// Takes bytes at the front of what is left of the text, and tells how many: all whole lines that are there.
    ///
    /// # Errors
    ///
    /// [`NoMemory`] where memory is refused.
    pub fn take(self, alloc: Global, text: &[u8]) -> Result<(Self, usize), NoMemory>
        ensures within { IfOk result (λ taken. taken.1 ≤ length text.now) }
        ensures rows { IfOk result (λ taken. (rest : List ℕ) → rows_with taken.0 (drop taken.1 text.now ++ rest) ≡ rows_with self (text.now ++ rest)) }
        ensures whole { IfOk result (λ taken. IsFalse (has (drop taken.1 text.now) 10)) }
    {
        let Some(len) = whole_len(text) else {
            return Ok((self, 0));
        };
        let lines = unmarked_part(self.is_begun, &text[..len]);
        let rows = further(alloc, self.rows, lines)?;
        let reader = RowsReader {
            is_begun: true,
            rows,
        };
        Ok((reader, len))
    }

    /// The matrix of the text, or its first refusal, where these bytes are left of it.
    ///
    /// # Errors
    ///
    /// [`NoMemory`] where memory is refused.
    pub fn finish(self, alloc: Global, text: &[u8]) -> Result<Read<Matrix>, NoMemory>
        ensures { IfOk result (λ read. read ≡ rows_with self text.now) }
    {
        let lines = unmarked_part(self.is_begun, text);
        match further(alloc, self.rows, lines)? {
            None => Ok(refused(code::EMPTY, 0)),
            Some(rows) => Ok(matrix_of(rows)),
        }
    }
}

// The rows that were read and behind them those of the lines of a text, or the first refusal.
fn further(
    alloc: Global,
    rows: Option<Read<NamedRows>>,
    text: &[u8],
) -> Result<Option<Read<NamedRows>>, NoMemory>
    ensures { IfOk result (λ new. (later : List (List ℕ)) → begun_then new later ≡ begun_then rows (lines_of text.now ++ later)) }
{
    match rows {
        None => first_lines(alloc, text),
        Some(Read::Ok(rows)) => Ok(Some(rows.with_lines(text)?)),
        Some(Read::Refused(refusal)) => Ok(Some(Read::Refused(refusal))),
    }
}

// The same, where no line was read yet.
fn first_lines(alloc: Global, text: &[u8]) -> Result<Option<Read<NamedRows>>, NoMemory>
    ensures { IfOk result (λ new. (later : List (List ℕ)) → begun_then new later ≡ sparse_lines (numbered_lines 1 (lines_of text.now ++ later))) }
{
    let Some(first) = next_line(text, 0) else {
        return Ok(None);
    };
    match width_given(&text[first.start..first.end]) {
        Err(code) => Ok(Some(Read::Refused(Refusal { code, line: 1 }))),
        Ok(c) => {
            let rows = NamedRows::new(alloc, 1, c, text.len())?;
            Ok(Some(rows.with_lines(&text[first.next..])?))
        }
    }
}

/// The matrix of what was read.
pub(crate) fn matrix_of(read: Read<NamedRows>) -> Read<Matrix>
    ensures { result ≡ read_then read [] }
{
    match read {
        Read::Ok(rows) => {
            let NamedRows { matrix, .. } = rows;
            Read::Ok(matrix)
        }
        Read::Refused(refusal) => Read::Refused(refusal),
    }
}
