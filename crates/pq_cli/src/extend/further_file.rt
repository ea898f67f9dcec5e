// The file of further rows.
ghost use Rattle.std.specs.Prelude.{◌≤◌};
ghost use Rattle.column_order.specs.declared.TheConstants.{COLUMN_BOUND};

use crate::NoMemory;
use crate::input::FileForm;
use matrix_read::{limits_law, read_more, refusal_laws};
use row_model::{Matrix, Read};
use std::alloc::Global;

/// The file of further rows over the columns of a matrix.
#[derive(Clone, Copy)]
pub struct FurtherFile {
    /// The number of the columns.
    pub columns: u32,
    ghost some: { 1 ≤ columns },
    ghost few: { columns ≤ COLUMN_BOUND },
}

impl FileForm for FurtherFile {
    ghost use Rattle.pq_cli.specs.Further.{ReadsFurther, HoldsFurther};

    type Value = Matrix;

    ghost reads = { λ file. ReadsFurther file.columns };

    ghost holds = { λ file. HoldsFurther file.columns };

    fn read(&self, alloc: Global, bytes: &[u8]) -> Result<Read<Matrix>, NoMemory> {
        limits_law();
        read_more(alloc, bytes, self.columns)
    }

    fn long_law(&self) {
        refusal_laws();
    }
}
