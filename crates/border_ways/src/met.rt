// The rows and columns of a part of a matrix.
ghost use Rattle.std.specs.Prelude.{◌≤◌, length};

use row_model::{Line, NoMemory, Why};
use std::alloc::Global;

/// Rows and columns.
pub struct Met {
    /// The rows.
    pub rows: Vec<u32>,
    /// The columns.
    pub columns: Vec<u32>,
}

// By hand, so that a place where they are dropped proves one call and does not take their lists apart.
impl Drop for Met {
    fn drop(self) {
        let Met {
            rows: _rows,
            columns: _columns,
        } = self;
    }
}

impl Met {
    /// None yet.
    pub fn new(alloc: Global) -> Self {
        Met {
            rows: Vec::new(alloc),
            columns: Vec::new(alloc),
        }
    }

    /// Adds those of the lines of a cycle.
    ///
    /// # Errors
    ///
    /// `NoMemory`.
    pub fn add_lines(&mut self, lines: &[Line]) -> Result<(), NoMemory> {
        for line in lines {
            self.columns.push(line.pair.a)?;
            self.columns.push(line.pair.b)?;
            if let Why::Row(k) = line.why {
                self.rows.push(k)?;
            }
        }
        Ok(())
    }

    /// Sorts them, and leaves out what stands there twice.
    pub fn settle(&mut self)
        ensures rows { length self.new.rows.items ≤ length self.old.rows.items }
        ensures columns { length self.new.columns.items ≤ length self.old.columns.items }
    {
        self.rows.sort_unstable();
        self.rows.dedup();
        self.columns.sort_unstable();
        self.columns.dedup();
    }
}
