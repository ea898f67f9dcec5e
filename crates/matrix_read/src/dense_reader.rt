// A matrix as lines of digits, read in pieces.
ghost use Rattle.std.specs.Prelude.{◌≡◌, ◌⊎◌, ◌+◌, ◌≤◌, ℕ, List, ◌++◌, drop, length, IsFalse, IfOk};
ghost use Rattle.column_order.specs.Orders.{has};
ghost use Rattle.row_model.specs.declared.TheConstants.{MAX_FILE_BYTES};
ghost use Rattle.row_model.specs.declared.code.TheConstants.{LIMIT};
ghost use Rattle.matrix_read.specs.Dense.{dense};

use crate::digit_lines::{further, matrix_read};
use crate::digit_rows::DigitRows;
use crate::rows::refused;
use row_model::{MAX_FILE_BYTES, Matrix, NoMemory, Read, code};
use std::alloc::Global;
use text_lines::{unmarked_part, whole_len};

/// The reader of [`read_dense`](crate::read_dense) over a text that comes in pieces.
///
/// The memory that is written is that of the matrix and of one row. Room is asked for by the bytes at hand: up to nine
/// bytes for each of them.
#[derive(Drop)]
pub struct DenseReader {
    is_begun: bool,
    // How many bytes were taken, and how many lines these have.
    taken: usize,
    passed: u32,
    rows: Option<Read<DigitRows>>,
    ghost few: { passed ≤ taken },
    ghost short: { taken ≤ MAX_FILE_BYTES },
}

impl DenseReader {
    ghost use Rattle.matrix_read.specs.DigitRows.{dense_with};

    /// A reader that has read nothing.
    pub fn new() -> Self
        ensures { (bytes : List ℕ) → dense_with result bytes ≡ dense bytes }
    {
        DenseReader {
            is_begun: false,
            taken: 0,
            passed: 0,
            rows: None,
        }
    }

    /// Takes bytes at the front of what is left of the text, and tells how many: all whole lines that are there, unless
    /// the text is past the limit of its length, and so refused whatever follows.
    ///
    /// # Errors
    ///
    /// [`NoMemory`] where memory is refused.
    pub fn take(self, alloc: Global, text: &[u8]) -> Result<(Self, usize), NoMemory>
        ensures within { IfOk result (λ taken. taken.1 ≤ length text.now) }
        ensures rows { IfOk result (λ taken. (rest : List ℕ) → dense_with taken.0 (drop taken.1 text.now ++ rest) ≡ dense_with self (text.now ++ rest)) }
        ensures whole { IfOk result (λ taken. IsFalse (has (drop taken.1 text.now) 10)
            ⊎ ((rest : List ℕ) → dense_with self (text.now ++ rest) ≡ Read.Refused (record { code = LIMIT; line = 0 }))) }
    {
        if text.len() > MAX_FILE_BYTES as usize - self.taken {
            return Ok((self, 0));
        }
        let Some(len) = whole_len(text) else {
            return Ok((self, 0));
        };
        let lines = unmarked_part(self.is_begun, &text[..len]);
        let read = further(alloc, self.rows, lines, self.passed)?;
        let reader = DenseReader {
            is_begun: true,
            taken: self.taken + len,
            passed: read.passed,
            rows: read.rows,
        };
        Ok((reader, len))
    }

    /// The matrix of the text, or its first refusal, where these bytes are left of it.
    ///
    /// # Errors
    ///
    /// [`NoMemory`] where memory is refused.
    pub fn finish(self, alloc: Global, text: &[u8]) -> Result<Read<Matrix>, NoMemory>
        ensures { IfOk result (λ read. read ≡ dense_with self text.now) }
    {
        if text.len() > MAX_FILE_BYTES as usize - self.taken {
            return Ok(refused(code::LIMIT, 0));
        }
        let lines = unmarked_part(self.is_begun, text);
        let read = further(alloc, self.rows, lines, self.passed)?;
        Ok(matrix_read(read.rows))
    }
}
