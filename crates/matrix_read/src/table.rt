// A matrix as a table of comma-separated values.
ghost use Rattle.std.specs.Prelude.{◌≡◌, ◌+◌, ◌≤◌, ◌↔◌, ◌∷◌, [], length, take, IfOk, IsNone, IfSome, IsTrue};
ghost use Rattle.std.specs.List.{list_any};
ghost use Rattle.csv.specs.Records.{fields_of};
ghost use Rattle.row_model.specs.declared.refusal.Read.TheVariants as read;
ghost use Rattle.matrix_read.specs.RecordsLeft.{IsPlain, records_left};
ghost use Rattle.matrix_read.specs.Cells.{cells, is_foreign_cell, record_row};
ghost use Rattle.matrix_read.specs.TableLaws.{TableLaw, RowLaw, TrimmedLaw, HeaderNamesLaw, NamesLaw, HeaderLaw, RecordLaw, RefusalLaw};
ghost use Rattle.matrix_read.specs.Table.{names_of, header_code, read_records, table};
ghost use Rattle.matrix_read.specs.TableSteps.{header_read, FitsRecords, with_records, with_even_records};
ghost use Rattle.matrix_read.specs.Names.{has_twice};

use crate::cells::{entry, field, trimmed_field};
use crate::records::next_record;
use crate::rows::refused;
use csv::{ByteRecord, Reader, ReaderBuilder};
use indexmap::IndexSet;
use row_model::{
    COLUMN_BOUND, MAX_COLUMNS, MAX_FILE_BYTES, MAX_ROWS, Matrix, NoMemory, Read, code,
};
use std::alloc::Global;

/// Reads a matrix from the bytes of a table: comma-separated values, in which double quotes may stand round a field.
///
/// The first record names the columns. Its first field and that of every other record are passed over, so field j+1 is
/// of column j. Each later record is a row. A field counts without the spaces and tabs at both ends: the row has the
/// column where the field is `x`, `X` or a word of digits that are not all 0, and lacks it where the field is empty or
/// has zeros alone. A byte order mark at the start is passed over. Fields are bytes, and need not be UTF-8.
///
/// A file that breaks a rule gives its first refusal. The length of the file comes first, then a record of another
/// number of fields than the first one, then a file without a record; these name no line. The header is refused at line
/// 1 where it has no column, more than [`MAX_COLUMNS`], or two columns of one name; any number of names may be blank.
/// Last, each later record in turn is judged by the number of rows before it, of which there are at most [`MAX_ROWS`],
/// and by its fields. The line of its refusal is its number among the records.
///
/// The time is linear in the length of the file. Beside the matrix one record is kept at a time, whose fields take
/// eight bytes each. Room for the longest record is asked for at once: nine bytes for each byte of the file, of which
/// only what a record fills is written.
///
/// # Errors
///
/// [`NoMemory`] where memory is refused.
#[inline(never)]
pub fn read_table(alloc: Global, bytes: &[u8]) -> Result<Read<Matrix>, NoMemory>
    ensures { IfOk result (λ read. read ≡ table bytes.now) }
{
    if bytes.len() as u64 > MAX_FILE_BYTES {
        return Ok(refused(code::LIMIT, 0));
    }
    // No record has more fields than this, so its room never grows, and room that is not used is never touched.
    let mut fields = ByteRecord::with_capacity(alloc, bytes.len(), bytes.len() + 1)?;
    let mut reader = ReaderBuilder::new()
        .has_headers(false)
        .flexible(true)
        .from_reader(alloc, bytes);
    read_records(alloc, &mut reader, &mut fields)
}

// Reads the header and the records after it.
fn read_records(
    alloc: Global,
    reader: &mut Reader<&[u8]>,
    fields: &mut ByteRecord,
) -> Result<Read<Matrix>, NoMemory>
    requires { IsPlain reader.old }
    ensures { IfOk result (λ read. read ≡ read_records (records_left reader.old)) }
{
    if !next_record(reader, fields)? {
        return Ok(refused(code::EMPTY, 0));
    }
    let begun = read_header(alloc, fields)?;
    read_further(reader, fields, begun, &mut Vec::new(alloc))
}

// Reads the records after the header, which is in `fields`. All of them are read even after a refusal, since one of
// another length is refused before everything else. Each row stands in `columns` before it is added.
fn read_further(
    reader: &mut Reader<&[u8]>,
    fields: &mut ByteRecord,
    begun: Read<Matrix>,
    columns: &mut Vec<u32>,
) -> Result<Read<Matrix>, NoMemory>
    requires plain { IsPlain reader.old }
    requires within { FitsRecords (length (fields_of fields.old)) begun }
    ensures { IfOk result (λ read. read ≡ with_even_records (length (fields_of fields.old)) begun (records_left reader.old)) }
{
    let width = fields.len();
    let mut so_far = begun;
    while next_record(reader, fields)? {
        if fields.len() != width {
            return Ok(refused(code::CSV, 0));
        }
        so_far = with_record(so_far, fields, columns)?;
    }
    Ok(so_far)
}

// Adds the row of a record to what was read before. The row stands in `columns` before it is added.
fn with_record(
    so_far: Read<Matrix>,
    fields: &ByteRecord,
    columns: &mut Vec<u32>,
) -> Result<Read<Matrix>, NoMemory>
    requires { FitsRecords (length (fields_of fields.now)) so_far }
    ensures read { IfOk result (λ read. read ≡ with_records so_far (fields_of fields.now ∷ [])) }
    ensures within { IfOk result (λ read. FitsRecords (length (fields_of fields.now)) read) }
{
    let mut matrix = match so_far {
        Read::Ok(matrix) => matrix,
        Read::Refused(refusal) => return Ok(Read::Refused(refusal)),
    };
    let line = matrix.rows() + 2;
    if matrix.rows() >= MAX_ROWS {
        return Ok(refused(code::LIMIT, line));
    }
    columns.resize(matrix.columns() as usize, 0)?;
    let Some(ones) = mark_columns(fields, columns) else {
        return Ok(refused(code::GRAMMAR, line));
    };
    matrix.push_row(&columns[..ones])?;
    Ok(Read::Ok(matrix))
}

// How many columns the row of a record has, which stand at the front of `columns` then; none where a cell is not in the
// grammar. The column of a filled field is written before it is known whether the row has it, which costs less than a
// branch.
#[inline(never)]
fn mark_columns(fields: &ByteRecord, columns: &mut [u32]) -> Option<usize>
    requires width { length (fields_of fields.now) ≡ length columns.old + 1 }
    requires small { length columns.old ≤ COLUMN_BOUND }
    ensures foreign { IsNone result ↔ IsTrue (list_any is_foreign_cell (cells (fields_of fields.now))) }
    ensures row { IfSome result (λ ones. take ones columns.new ≡ record_row (fields_of fields.now)) }
    ensures within { IfSome result (λ ones. ones ≤ length columns.new) }
{
    let mut ones = 0;
    for before in 0..columns.len() {
        let field = field(fields, before + 1);
        if field.is_empty() {
            continue;
        }
        let Some(entry) = entry(field) else {
            return None;
        };
        columns[ones] = before as u32 + 1;
        ones += usize::from(entry);
    }
    Some(ones)
}

// A matrix with the columns of a header and no row, or the refusal of the header.
fn read_header(alloc: Global, header: &ByteRecord) -> Result<Read<Matrix>, NoMemory>
    ensures read { IfOk result (λ read. read ≡ header_read (fields_of header.now)) }
    ensures within { IfOk result (λ read. FitsRecords (length (fields_of header.now)) read) }
{
    match header_code(alloc, header)? {
        Some(code) => Ok(refused(code, 1)),
        None => Ok(Read::Ok(Matrix::new(alloc, header.len() as u32 - 1)?)),
    }
}

// The code by which a header is refused.
fn header_code(alloc: Global, header: &ByteRecord) -> Result<Option<u8>, NoMemory>
    ensures { IfOk result (λ code. code ≡ header_code (fields_of header.now)) }
{
    if header.len() < 2 {
        return Ok(Some(code::EMPTY));
    }
    if header.len() > MAX_COLUMNS as usize + 1 {
        return Ok(Some(code::LIMIT));
    }
    if has_twice(alloc, header)? {
        return Ok(Some(code::TWICE));
    }
    Ok(None)
}

// Whether two columns have one name.
fn has_twice(alloc: Global, header: &ByteRecord) -> Result<bool, NoMemory>
    ensures { IfOk result (λ twice. twice ≡ has_twice (names_of (fields_of header.now))) }
{
    let mut names: IndexSet<&[u8]> = IndexSet::new(alloc);
    stands_twice(&mut names, header)
}

// The same, over a set that holds no name before.
fn stands_twice<'a>(
    names: &mut IndexSet<&'a [u8]>,
    header: &'a ByteRecord,
) -> Result<bool, NoMemory>
    requires { names.old.keys ≡ [] }
    ensures { IfOk result (λ twice. twice ≡ has_twice (names_of (fields_of header.now))) }
{
    for place in 1..header.len() {
        let name = trimmed_field(header, place);
        if name.is_empty() {
            continue;
        }
        if !names.insert(name)? {
            return Ok(true);
        }
    }
    Ok(false)
}

/// The laws of [`read_table`]: the table that is written of a matrix is read as that matrix. A row has exactly
/// the columns whose fields say so, apart from blanks at both ends. The names are the fields of the header behind
/// the first that are not blank, apart from blanks at both ends, and are refused exactly where two of them are
/// the same. A header and a record are refused by the code of the first cause that holds. A refusal is of the
/// first record that is refused.
pub fn table_laws()
    ensures written { TableLaw }
    ensures row { RowLaw }
    ensures trimmed { TrimmedLaw }
    ensures header_names { HeaderNamesLaw }
    ensures names { NamesLaw }
    ensures header { HeaderLaw }
    ensures record_codes { RecordLaw }
    ensures refusal { RefusalLaw }
{}
