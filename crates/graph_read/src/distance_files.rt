// The reader of distances.
ghost use Rattle.std.specs.Prelude.{◌≡◌, ◌+◌, ◌-◌, ◌*◌, ◌<◌, ◌≤◌, [], length, drop, Ok, Err, IfSome, IfOk, IfNone};
ghost use Rattle.text_lines.specs.Lines.{lines_of, filled_lines};
ghost use Rattle.text_lines.specs.Words.{words_of};
ghost use Rattle.graph_read.specs.Numbers.{one_number};
ghost use Rattle.graph_read.specs.DistanceFiles.{items_named, distances};
ghost use Rattle.graph_read.specs.DistanceSteps.{numbers_behind, is_row_at, table_with_row, row_behind, table_behind};

use crate::heads::{head_of, refusal};
use crate::numbers::size_in;
use graph_model::Distances;
use row_model::{MAX_FILE_BYTES, MAX_ITEMS, NoMemory, Read, Refusal, code};
use std::alloc::Global;
use text_lines::{Numeral, next_filled_line, next_number};

// Adds the numbers of a line, or gives the code of the first word that is refused.
fn push_numbers(line: &[u8], values: &mut Vec<u64>) -> Result<Option<u8>, NoMemory>
    ensures refused { IfOk result (λ code. IfSome code (λ code. numbers_behind values.old.items (words_of line.now) ≡ Err code)) }
    ensures numbers { IfOk result (λ code. IfNone code (numbers_behind values.old.items (words_of line.now) ≡ Ok values.new.items)) }
{
    let mut at = 0;
    while let Some(word) = next_number(line, at) {
        match word.number {
            Numeral::NotDigits => return Ok(Some(code::GRAMMAR)),
            Numeral::TooLarge => return Ok(Some(code::RANGE)),
            Numeral::Value(n) => values.push(n)?,
        }
        at = word.next;
    }
    Ok(None)
}

// Whether the row of x, which counts from 1, is symmetric with the rows above it, and has 0 at x.
fn is_row(values: &[u64], n: usize, x: usize) -> bool
    requires items { n ≤ MAX_ITEMS }
    requires row { (1 ≤ x) × (x ≤ n) }
    requires whole { length values.now ≡ x * n }
    ensures { result ≡ is_row_at n values.now x }
{
    if values[(x - 1) * n + (x - 1)] != 0 {
        return false;
    }
    for y in 0..x - 1 {
        if values[(x - 1) * n + y] != values[y * n + (x - 1)] {
            return false;
        }
    }
    true
}

// The code by which a table is refused behind the row of x, if it is, where a whole row makes it so long.
fn entries_code(values: &[u64], n: usize, whole: usize, x: usize) -> Option<u8>
    requires items { n ≤ MAX_ITEMS }
    requires row { (1 ≤ x) × (x ≤ n) }
    requires whole { whole ≡ x * n }
    ensures refused { IfSome result (λ code. table_with_row n whole x (Ok values.now) ≡ Err code) }
    ensures taken { IfNone result (table_with_row n whole x (Ok values.now) ≡ Ok values.now) }
    ensures len { IfNone result (length values.now ≡ whole) }
{
    if values.len() != whole {
        return Some(code::COUNT);
    }
    if is_row(values, n, x) {
        None
    } else {
        Some(code::SYMMETRY)
    }
}

// Adds the row of a line behind the rows of x items, or gives the code of its refusal.
fn push_row(line: &[u8], n: usize, x: usize, values: &mut Vec<u64>) -> Result<Option<u8>, NoMemory>
    requires items { n ≤ MAX_ITEMS }
    requires rows { x ≤ n }
    requires whole { length values.old.items ≡ x * n }
    ensures refused { IfOk result (λ code. IfSome code (λ code. row_behind n x values.old.items line.now ≡ Err code)) }
    ensures taken { IfOk result (λ code. IfNone code (row_behind n x values.old.items line.now ≡ Ok values.new.items)) }
    ensures len { IfOk result (λ code. IfNone code ((x < n) × (length values.new.items ≡ (x + 1) * n))) }
{
    if x >= n {
        return Ok(Some(code::COUNT));
    }
    let whole = values.len() + n;
    match push_numbers(line, values)? {
        Some(code) => Ok(Some(code)),
        None => Ok(entries_code(values, n, whole, x + 1)),
    }
}

// Adds the rows of the lines from a place on, where `passed` lines stand before it, or gives the first refusal.
fn push_rows(
    text: &[u8],
    at: usize,
    passed: u32,
    n: usize,
    values: &mut Vec<u64>,
) -> Result<Option<Refusal>, NoMemory>
    requires short { length text.now ≤ MAX_FILE_BYTES }
    requires at { at ≤ length text.now }
    requires passed { passed ≤ at }
    requires items { n ≤ MAX_ITEMS }
    requires empty { values.old.items ≡ [] }
    ensures refused { IfOk result (λ r. IfSome r (λ refusal. table_behind n 0 [] (filled_lines (passed + 1) (lines_of (drop at text.now))) ≡ Err refusal)) }
    ensures table { IfOk result (λ r. IfNone r (table_behind n 0 [] (filled_lines (passed + 1) (lines_of (drop at text.now))) ≡ Ok values.new.items)) }
{
    let mut number = passed;
    let mut place = at;
    let mut x = 0;
    while let Some(line) = next_filled_line(text, place, number) {
        number = line.number;
        place = line.span.next;
        match push_row(&text[line.span.start..line.span.end], n, x, values)? {
            Some(code) => {
                return Ok(Some(Refusal { code, line: number }));
            }
            None => x += 1,
        }
    }
    if x < n {
        return Ok(Some(Refusal {
            code: code::COUNT,
            line: 0,
        }));
    }
    Ok(None)
}

/// Reads distances from the bytes of a file: a line with the number of items, and a line for each row of the table.
///
/// Blank lines are passed over, and they count for line numbers. The first line has one number n, from 1 to
/// [`MAX_ITEMS`](row_model::MAX_ITEMS). Each of the n later lines has n numbers of 64 bits: the distances of one item
/// to all. The table is symmetric, and the distance of an item to itself is 0. A byte order mark at the start is passed
/// over.
///
/// A file that breaks a rule gives its first refusal. The length of the file comes first, then a file without a line,
/// and then line for line from the first on. A row is judged by the number of rows before it, then word for word from
/// the left, by the number of its words, and by the rows above it. Last come rows that are missing.
///
/// The time is linear in the length of the file. The numbers of a line are kept until it is judged, behind those of the
/// table, which stay: eight bytes each in a list whose room doubles as it grows, so up to sixteen bytes for each
/// number, and up to 24 while the list moves to its new room.
///
/// # Errors
///
/// [`NoMemory`] where memory is refused.
pub fn read_distances(alloc: Global, bytes: &[u8]) -> Result<Read<Distances>, NoMemory>
    ensures { IfOk result (λ read. read ≡ distances bytes.now) }
{
    let head = match head_of(bytes) {
        Err(refusal) => return Ok(Read::Refused(refusal)),
        Ok(head) => head,
    };
    let n = match size_in(MAX_ITEMS, head.line) {
        Err(code) => return Ok(Read::Refused(refusal(code, head.number))),
        Ok(n) => n,
    };
    let mut values = Vec::new(alloc);
    match push_rows(head.text, head.next, head.number, n as usize, &mut values)? {
        Some(refusal) => Ok(Read::Refused(refusal)),
        None => Ok(Read::Ok(Distances::of_values(n, values))),
    }
}
