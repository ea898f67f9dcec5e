// Lines of columns in the plainest form: with one space between two, and a line feed behind the last.
ghost use Rattle.std.specs.Prelude.{◌≡◌, ◌+◌, ◌-◌, ◌<◌, ◌≤◌, ◌∷◌, length, take, drop, None, IfSome};
ghost use Rattle.text_lines.specs.Lines.{first_line, without_return, lines_of};
ghost use Rattle.text_lines.specs.Words.{words_of};
ghost use Rattle.matrix_read.specs.Sparse.{words_code};
ghost use Rattle.matrix_read.specs.SparseSteps.{row_named};

use row_model::COLUMN_BOUND;
use text_lines::{DigitEnds, next_digits};

/// The row of a line.
#[derive(Clone, Copy)]
pub(crate) struct LineRow {
    /// How many columns it has.
    pub ones: usize,
    /// The place where the next line begins, or the end of the text.
    pub next: usize,
}

/// The row over 1 to `c` of the line that begins at a place, if the line has the plainest form: ascending columns, one
/// space between two, and a line feed behind the last. They stand at the front of `columns` then.
pub(crate) fn plain_row(text: &[u8], at: usize, c: usize, columns: &mut [u32]) -> Option<LineRow>
    requires at { at ≤ length text.now }
    requires small { c ≤ COLUMN_BOUND }
    requires room { c ≤ length columns.old }
    ensures range { IfSome result (λ row. (at < row.next) × (row.next ≤ length text.now)) }
    ensures line { IfSome result (λ row. lines_of (drop at text.now)
        ≡ without_return (first_line (drop at text.now)) ∷ lines_of (drop row.next text.now)) }
    ensures named { IfSome result (λ row.
        words_code c (words_of (without_return (first_line (drop at text.now)))) ≡ None) }
    ensures row { IfSome result (λ row.
        take row.ones columns.new ≡ row_named c (without_return (first_line (drop at text.now)))) }
    ensures within { IfSome result (λ row. row.ones ≤ length columns.new) }
{
    let mut ones = 0;
    let mut last = 0;
    let mut place = at;
    let mut ends = DigitEnds::none();
    loop {
        let found = next_digits(text, place, ends);
        let column = found.run;
        if column.value <= last || column.value > c as u64 || column.end == text.len() {
            return None;
        }
        columns[ones] = column.value as u32;
        ones += 1;
        last = column.value;
        ends = found.ends;
        place = column.end + 1;
        match text[column.end] {
            b' ' => {}
            b'\n' => return Some(LineRow { ones, next: place }),
            _ => return None,
        }
    }
}
