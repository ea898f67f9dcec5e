// Rows of digits that are read line by line.
ghost use Rattle.std.specs.Prelude.{◌≡◌, ◌+◌, ◌^◌, ◌<◌, ◌≤◌, ℕ, List, [], ◌++◌, length, vec_len, IfOk};
ghost use Rattle.row_model.specs.declared.TheConstants.{MAX_COLUMNS};
ghost use Rattle.text_lines.specs.Lines.{lines_of};
ghost use Rattle.matrix_read.specs.DigitsThen.{digits_then};

use crate::dense::push_rows;
use row_model::{MAX_COLUMNS, Matrix, NoMemory, Read};
use std::alloc::Global;

/// The rows that were read so far, and an entry for each of their columns.
#[derive(Drop)]
pub(crate) struct DigitRows {
    /// The rows.
    pub matrix: Matrix,
    /// An entry for each column.
    pub columns: Vec<u32>,
    ghost entry_each: { vec_len columns ≡ matrix.columns },
    ghost small: { matrix.columns ≤ MAX_COLUMNS },
}

/// What was read of some lines.
#[derive(Drop)]
pub(crate) struct LinesRead {
    /// How many lines these are, unless there is a refusal.
    pub passed: u32,
    /// Their rows or the first refusal, where one of them is not blank.
    pub rows: Option<Read<DigitRows>>,
}

impl DigitRows {
    ghost use Rattle.matrix_read.specs.DigitRows.{lines_then};

    /// No row of this width, where so many bytes of lines are at hand.
    pub fn new(alloc: Global, width: u32, bytes: usize) -> Result<Self, NoMemory>
        requires range { (1 ≤ width) × (width ≤ MAX_COLUMNS) }
        ensures { IfOk result (λ rows. rows.matrix ≡ record { columns = width; rows = [] }) }
    {
        let columns = vec![in alloc; 0u32; width as usize]?;
        // A line takes a byte for each column or more. Where more than a quarter are ones, their list grows later.
        let matrix = Matrix::with_room(alloc, width, bytes / width as usize, bytes / 4)?;
        Ok(DigitRows { matrix, columns })
    }

    /// These rows, and behind them those of the lines of a text, before which `passed` lines stand; or the first refusal.
    pub fn with_lines(self, text: &[u8], passed: u32) -> Result<LinesRead, NoMemory>
        requires few { passed + length text.now < 2 ^ 32 }
        ensures rows { IfOk result (λ read. (later : List (List ℕ)) → lines_then read.passed read.rows later
            ≡ digits_then passed self.matrix (lines_of text.now ++ later)) }
        ensures within { IfOk result (λ read. read.passed ≤ passed + length text.now) }
    {
        let DigitRows {
            mut matrix,
            mut columns,
        } = self;
        match push_rows(&mut matrix, text, passed, &mut columns)? {
            Err(refusal) => Ok(LinesRead {
                passed,
                rows: Some(Read::Refused(refusal)),
            }),
            Ok(passed) => Ok(LinesRead {
                passed,
                rows: Some(Read::Ok(DigitRows { matrix, columns })),
            }),
        }
    }
}
