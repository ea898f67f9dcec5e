// A matrix as lines of digits.
ghost use Rattle.std.specs.Prelude.{◌≡◌, ◌+◌, ◌-◌, ◌^◌, ◌<◌, ◌≤◌, ◌↔◌, ◌==◌, ℕ, List, ◌++◌, true, false, slice_set, [], length, take, Some, None, IsNone, IfNone, IfOk, IfErr, OnOk, IfSome, IsTrue};
ghost use Rattle.std.specs.List.{list_any};
ghost use Rattle.text_lines.specs.Lines.{is_blank, lines_of, filled_lines};
ghost use Rattle.matrix_read.specs.Dense.{width_of, digit_row, dense};
ghost use Rattle.matrix_read.specs.DenseSteps.{is_foreign_byte, row_code, read_lines};
ghost use Rattle.matrix_read.specs.DigitsThen.{digits_then, pushed_then, front_then, IsDigitLine, IsFrontWithin};
ghost use Rattle.matrix_read.specs.Written.{DenseLaw};

use crate::bit_places::BitPlaces;
use crate::dense_reader::DenseReader;
use crate::digit_blocks::ones_alone;
use row_model::{MAX_COLUMNS, MAX_ROWS, Matrix, NoMemory, Read, Refusal, code};
use std::alloc::Global;
use text_lines::line_from;

/// Reads a matrix from the bytes of a file: lines of the digits 0 and 1, between which spaces and tabs may stand.
///
/// Each line that is not blank is a row, and its j-th digit is 1 where the row has column j. The first row has
/// 1 to [`MAX_COLUMNS`] digits, each later one as many as the first, and there are 1 to [`MAX_ROWS`] rows. A byte
/// order mark at the start is passed over.
///
/// A file that breaks a rule gives its first refusal. The length of the file comes first. Then each line in turn is
/// judged by the number of rows before it, by its bytes, and by the number of its digits. Last comes a file without
/// a row.
///
/// The time is linear in the length of the file. The memory that is written is that of the matrix and of one row. Room
/// is asked for by the bytes at hand: up to nine bytes for each of them.
///
/// # Errors
///
/// [`NoMemory`] where memory is refused.
pub fn read_dense(alloc: Global, bytes: &[u8]) -> Result<Read<Matrix>, NoMemory>
    ensures { IfOk result (λ read. read ≡ dense bytes.now) }
{
    DenseReader::new().finish(alloc, bytes)
}

/// The first line that is not blank.
#[derive(Clone, Copy)]
pub(crate) struct FirstRow {
    /// How many digits it has.
    pub width: u32,
    /// The place where it begins.
    pub start: usize,
    /// How many lines stand before it.
    pub passed: u32,
}

/// What stands at the front of a text, where `passed` lines were before it.
pub(crate) enum Front {
    /// Lines that are blank, and no other: how many lines there were then.
    NoRow(u32),
    /// A row, behind blank lines or none.
    Row(FirstRow),
}

/// What stands at the front of a text, where `passed` lines were before it, or the first refusal.
pub(crate) fn front_of(text: &[u8], passed: u32) -> Result<Front, Refusal>
    requires few { passed + length text.now < 2 ^ 32 }
    ensures refused { IfErr result (λ refusal. (later : List (List ℕ))
        → read_lines (filled_lines (passed + 1) (lines_of text.now ++ later)) ≡ Read.Refused refusal) }
    ensures front { IfOk result (λ front. (later : List (List ℕ)) → front_then text.now front later
        ≡ read_lines (filled_lines (passed + 1) (lines_of text.now ++ later))) }
    ensures within { IfOk result (IsFrontWithin passed text.now) }
{
    let mut before = passed;
    let mut at = 0;
    while at < text.len() {
        let line = line_from(text, at);
        match scan_any(&text[line.start..line.end], &mut []) {
            None => {
                return Err(Refusal {
                    code: code::GRAMMAR,
                    line: before + 1,
                });
            }
            Some(digits) if digits.all > MAX_COLUMNS as usize => {
                return Err(Refusal {
                    code: code::LIMIT,
                    line: before + 1,
                });
            }
            Some(digits) if digits.all > 0 => {
                return Ok(Front::Row(FirstRow {
                    width: digits.all as u32,
                    start: at,
                    passed: before,
                }));
            }
            Some(_) => {}
        }
        before += 1;
        at = line.next;
    }
    Ok(Front::NoRow(before))
}

/// Adds the rows of a text to a matrix, where `passed` lines stand before the text: how many lines stand before its end,
/// or the first refusal. Each row stands in `columns` until it is pushed.
pub(crate) fn push_rows(
    matrix: &mut Matrix,
    text: &[u8],
    passed: u32,
    columns: &mut [u32],
) -> Result<Result<u32, Refusal>, NoMemory>
    requires few { passed + length text.now < 2 ^ 32 }
    requires width { length columns.old ≡ matrix.old.columns }
    requires small { matrix.old.columns ≤ MAX_COLUMNS }
    ensures rows { IfOk result (λ pushed. (later : List (List ℕ)) → pushed_then pushed matrix.new later
        ≡ digits_then passed matrix.old (lines_of text.now ++ later)) }
    ensures width { OnOk result (matrix.new.columns ≡ matrix.old.columns) }
    ensures within { IfOk result (λ pushed. IfOk pushed (λ after. after ≤ passed + length text.now)) }
{
    let table = BitPlaces::new();
    let mut line = passed;
    let mut at = 0;
    while at < text.len() {
        let span = line_from(text, at);
        line += 1;
        at = span.next;
        match row_in(&text[span.start..span.end], matrix.rows(), &table, columns) {
            DigitLine::Refused(code) => return Ok(Err(Refusal { code, line })),
            DigitLine::NoRow => {}
            DigitLine::Row(ones) => matrix.push_row(&columns[..ones])?,
        }
    }
    Ok(Ok(line))
}

/// A line of digits as a row.
#[derive(Clone, Copy)]
pub(crate) enum DigitLine {
    /// It is blank, and no row.
    NoRow,
    /// A row with so many ones.
    Row(usize),
    /// It is refused with this code.
    Refused(u8),
}

// A line as a row, where so many rows stand before it. Its columns stand at the front of `columns` then.
fn row_in(line: &[u8], before: u32, table: &BitPlaces, columns: &mut [u32]) -> DigitLine
    requires { length columns.old ≤ MAX_COLUMNS }
    ensures { IsDigitLine (length columns.old) before line.now columns.new result }
{
    let Some(digits) = scan(line, table, columns) else {
        if before >= MAX_ROWS {
            return DigitLine::Refused(code::LIMIT);
        }
        return DigitLine::Refused(code::GRAMMAR);
    };
    if digits.all == 0 {
        return DigitLine::NoRow;
    }
    if before >= MAX_ROWS {
        return DigitLine::Refused(code::LIMIT);
    }
    if digits.all != columns.len() {
        return DigitLine::Refused(code::COUNT);
    }
    DigitLine::Row(digits.ones)
}

// How many digits a line has, and how many columns were written for them.
#[derive(Clone, Copy)]
struct Digits {
    all: usize,
    ones: usize,
}

// The digits of a line, if it has no other bytes but spaces and tabs. The columns of its ones stand at the front of
// `columns` then, if that has an entry for each digit.
fn scan(line: &[u8], table: &BitPlaces, columns: &mut [u32]) -> Option<Digits>
    requires { length columns.old < 2 ^ 32 }
    ensures foreign { IsNone result ↔ IsTrue (list_any is_foreign_byte line.now) }
    ensures width { IfSome result (λ digits. digits.all ≡ width_of line.now) }
    ensures row { IfSome result (λ digits. width_of line.now ≤ length columns.new → take digits.ones columns.new ≡ digit_row line.now) }
    ensures within { IfSome result (λ digits. digits.ones ≤ length columns.new) }
{
    if line.len() == columns.len() {
        if let Some(ones) = ones_alone(line, table, columns) {
            return Some(Digits {
                all: line.len(),
                ones,
            });
        }
    }
    scan_any(line, columns)
}

// The same, byte by byte, whatever the line is.
fn scan_any(line: &[u8], columns: &mut [u32]) -> Option<Digits>
    requires { length columns.old < 2 ^ 32 }
    ensures foreign { IsNone result ↔ IsTrue (list_any is_foreign_byte line.now) }
    ensures width { IfSome result (λ digits. digits.all ≡ width_of line.now) }
    ensures row { IfSome result (λ digits. width_of line.now ≤ length columns.new → take digits.ones columns.new ≡ digit_row line.now) }
    ensures within { IfSome result (λ digits. digits.ones ≤ length columns.new) }
{
    let mut digits = Digits { all: 0, ones: 0 };
    for byte in line {
        let digit = byte.wrapping_sub(b'0');
        if digit <= 1 {
            digits = with_digit(digits, digit, columns);
            continue;
        }
        if *byte != b' ' && *byte != b'\t' {
            return None;
        }
    }
    Some(digits)
}

// One digit more. Its column is written in either case, which costs less than a branch, and only a 1 keeps the entry.
#[inline(always)]
fn with_digit(digits: Digits, digit: u8, columns: &mut [u32]) -> Digits
    requires digit { digit ≤ 1 }
    requires few { digits.ones ≤ digits.all }
    requires fits { digits.all + 1 < 2 ^ 64 }
    requires small { length columns.old < 2 ^ 32 }
    ensures all { result.all ≡ digits.all + 1 }
    ensures ones { result.ones ≤ digits.ones + 1 }
    ensures within { digits.ones ≤ length columns.old → result.ones ≤ length columns.old }
    ensures written { digits.all < length columns.old → (result.ones ≡ digits.ones + digit) × (columns.new ≡ slice_set columns.old digits.ones (digits.all + 1)) }
{
    let mut ones = digits.ones;
    if digits.all < columns.len() {
        columns[ones] = digits.all as u32 + 1;
        ones += usize::from(digit);
    }
    Digits {
        all: digits.all + 1,
        ones,
    }
}

/// The law of [`read_dense`]: a text that writes each row of a matrix as a line of digits is read as that matrix.
pub fn dense_law()
    ensures { DenseLaw }
{}
