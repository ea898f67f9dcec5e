// What the readers refuse. A call stands for its clauses alone.
ghost use Rattle.matrix_read.specs.Limits.{LimitsLaw};
ghost use Rattle.matrix_read.specs.CloneRefusals.{CloneRefusals};
ghost use Rattle.text_lines.specs.FirstRefusal.{FirstLineLaw};
ghost use Rattle.matrix_read.specs.Refusals.{DenseRefusals, SparseRefusals, FurtherRefusals};
ghost use Rattle.matrix_read.specs.TableLaws.{TableRefusals};

/// What [`read_dense`](crate::read_dense), [`read_rows`](crate::read_rows), [`read_more`](crate::read_more),
/// [`read_table`](crate::read_table) and [`read_clones`](crate::read_clones) refuse, and what they read where nothing
/// is refused.
///
/// Among lines that are judged one after another the first that is refused gives the refusal, by its number and its
/// code; [`text_laws`](crate::text_laws) says which number a line has, and [`table_laws`](crate::table_laws) which headers and records
/// are refused by which code. Before it come a file past the limit of its length, a file without a line, and the line
/// that a file begins with. Of a table the same is said of records, and of a clone file of clones, before which come
/// bytes without a value, a value of another shape, the probes, and the number of clones. A file in which nothing is
/// refused is read as the matrix whose rows are those of its lines, records or clones.
pub fn refusal_laws()
    ensures first { FirstLineLaw }
    ensures dense { DenseRefusals }
    ensures rows { SparseRefusals }
    ensures more { FurtherRefusals }
    ensures table { TableRefusals }
    ensures clones { CloneRefusals }
{}

/// The readers' limits: each matrix that is read of a whole file has 1 to [`MAX_COLUMNS`](row_model::MAX_COLUMNS)
/// columns, and no more than [`MAX_ROWS`](row_model::MAX_ROWS) rows. Further rows are over the columns that they were
/// asked for, and no more than [`MAX_ROWS`](row_model::MAX_ROWS).
pub fn limits_law()
    ensures { LimitsLaw }
{}
