// The file of a tree.
ghost use Rattle.std.specs.Prelude.{◌≤◌};
ghost use Rattle.column_order.specs.declared.TheConstants.{COLUMN_BOUND};

use crate::NoMemory;
use crate::input::FileForm;
use commands::{tree_file_law, tree_in};
use pq_tree::PqTree;
use row_model::Read;
use std::alloc::Global;

/// The file of a tree over so many columns.
#[derive(Clone, Copy)]
pub struct TreeFile {
    /// The number of the columns.
    pub columns: u32,
    ghost some: { 1 ≤ columns },
    ghost few: { columns ≤ COLUMN_BOUND },
}

impl FileForm for TreeFile {
    ghost use Rattle.command_input.specs.TreeFiles.{ReadsTree, HoldsTree};

    type Value = PqTree;

    ghost reads = { λ file. ReadsTree file.columns };

    ghost holds = { λ file. HoldsTree file.columns };

    fn read(&self, alloc: Global, bytes: &[u8]) -> Result<Read<PqTree>, NoMemory> {
        tree_in(alloc, self.columns, bytes)
    }

    fn long_law(&self) {
        tree_file_law();
    }
}
