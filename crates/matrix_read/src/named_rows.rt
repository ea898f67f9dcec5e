// Rows that are read line by line.
ghost use Rattle.std.specs.Prelude.{◌≡◌, ◌+◌, ◌≤◌, ℕ, List, [], ◌++◌, false, length, vec_len, slice_index_or, IfOk};
ghost use Rattle.row_model.specs.declared.TheConstants.{MAX_ROWS};
ghost use Rattle.text_lines.specs.Lines.{lines_of};
ghost use Rattle.column_order.specs.declared.TheConstants.{COLUMN_BOUND};

use crate::sparse::push_rows;
use row_model::{COLUMN_BOUND, Matrix, NoMemory, Read};
use std::alloc::Global;

/// The rows that were read so far, and what reading further ones needs.
#[derive(Drop)]
pub(crate) struct NamedRows {
    /// How many lines stand before the rows.
    pub passed: u32,
    /// The rows.
    pub matrix: Matrix,
    /// A mark for each column, none of which is set.
    pub marks: Vec<bool>,
    /// An entry for each column.
    pub columns: Vec<u32>,
    ghost few_passed: { passed ≤ 1 },
    ghost few: { length matrix.rows ≤ MAX_ROWS },
    ghost small: { matrix.columns ≤ COLUMN_BOUND },
    ghost mark_each: { vec_len marks ≡ matrix.columns },
    ghost clear: { (j : ℕ) → slice_index_or marks.items j false ≡ false },
    ghost entry_each: { vec_len columns ≡ matrix.columns },
}

impl NamedRows {
    ghost use Rattle.matrix_read.specs.NamedRows.{read_then, named_then};

    /// No row over 1 to `c`, where `passed` lines stand before the first, and so many bytes of lines are at hand.
    pub fn new(alloc: Global, passed: u32, c: u32, bytes: usize) -> Result<Self, NoMemory>
        requires passed { passed ≤ 1 }
        requires range { (1 ≤ c) × (c ≤ COLUMN_BOUND) }
        ensures passed { IfOk result (λ rows. rows.passed ≡ passed) }
        ensures matrix { IfOk result (λ rows. rows.matrix ≡ record { columns = c; rows = [] }) }
    {
        let marks = vec![in alloc; false; c as usize]?;
        let columns = vec![in alloc; 0u32; c as usize]?;
        // Most numbers take four bytes of a line or more.
        let matrix = Matrix::with_room(alloc, c, bytes / 4, bytes / 4)?;
        Ok(NamedRows {
            passed,
            matrix,
            marks,
            columns,
        })
    }

    /// These rows, and behind them those of the lines of a text; or the first refusal.
    pub fn with_lines(self, text: &[u8]) -> Result<Read<NamedRows>, NoMemory>
        ensures { IfOk result (λ read. (later : List (List ℕ)) → read_then read later ≡ named_then self (lines_of text.now ++ later)) }
    {
        let NamedRows {
            passed,
            mut matrix,
            mut marks,
            mut columns,
        } = self;
        match push_rows(&mut matrix, text, passed, &mut marks, &mut columns)? {
            Some(refusal) => Ok(Read::Refused(refusal)),
            None => Ok(Read::Ok(NamedRows {
                passed,
                matrix,
                marks,
                columns,
            })),
        }
    }
}
