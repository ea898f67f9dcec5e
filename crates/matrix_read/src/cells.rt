// The cells of a table: its fields without the spaces and tabs at both ends.
ghost use Rattle.std.specs.Prelude.{◌≡◌, ◌==◌, not, ◌+◌, ◌<◌, ◌≤◌, ◌↔◌, ◌∷◌, length, drop, map, false, Some, IsNone, IfSome, IsTrue};
ghost use Rattle.std.specs.Int.{from_bool};
ghost use Rattle.csv.specs.Records.{field_at, fields_of};
ghost use Rattle.text_lines.specs.Lines.{is_blank_byte};
ghost use Rattle.matrix_read.specs.Cells.{without_last_blanks, trimmed, is_absent, is_cross, is_present, is_foreign_cell};

use csv::ByteRecord;
use text_lines::{all_digits, count_blanks};

/// The field at a place, from 0, without the spaces and tabs at both ends.
pub fn trimmed_field(fields: &ByteRecord, place: usize) -> &[u8]
    requires { place < length (fields_of fields.now) }
    ensures { map trimmed (drop place (fields_of fields.now)) ≡ result.now ∷ map trimmed (drop (place + 1) (fields_of fields.now)) }
{
    trimmed(field(fields, place))
}

/// The field at a place, from 0.
pub fn field(fields: &ByteRecord, place: usize) -> &[u8]
    requires { place < length (fields_of fields.now) }
    ensures { field_at (fields_of fields.now) place ≡ Some result.now }
{
    match fields.get(place) {
        Some(field) => field,
        None => unreachable!(),
    }
}

/// What a row has in the column of a field, 0 or 1; none where the field is not in the grammar. A field counts without
/// the spaces and tabs at both ends.
pub fn entry(field: &[u8]) -> Option<u8>
    ensures foreign { IsNone result ↔ IsTrue (is_foreign_cell (trimmed field.now)) }
    ensures present { IfSome result (λ one. one ≡ from_bool (is_present (trimmed field.now))) }
{
    let digit = lone_digit(field);
    if digit <= 9 {
        return Some(u8::from(digit != 0));
    }
    if is_cross(field) {
        return Some(1);
    }
    cell_entry(trimmed(field))
}

// The digit in a field of one byte, as most filled ones of large tables are; a number above 9 for every other field. No
// branch tells 0 from another digit, since none could be foretold.
#[inline(always)]
fn lone_digit(field: &[u8]) -> u8
    ensures { result ≤ 9 → (is_foreign_cell (trimmed field.now) ≡ false) × (is_present (trimmed field.now) ≡ not (result == 0)) }
{
    if field.len() != 1 {
        return 10;
    }
    field[0].wrapping_sub(b'0')
}

// The entry of a field, given as its cell.
fn cell_entry(cell: &[u8]) -> Option<u8>
    ensures foreign { IsNone result ↔ IsTrue (is_foreign_cell cell.now) }
    ensures present { IfSome result (λ one. one ≡ from_bool (is_present cell.now)) }
{
    if is_present(cell) {
        return Some(1);
    }
    if is_absent(cell) {
        return Some(0);
    }
    None
}

// A field without the spaces and tabs at both ends.
fn trimmed(field: &[u8]) -> &[u8]
    ensures { result.now ≡ trimmed field.now }
{
    without_last_blanks(&field[count_blanks(field)..])
}

// The bytes up to the last that is no space or tab.
fn without_last_blanks(bytes: &[u8]) -> &[u8]
    ensures { result.now ≡ without_last_blanks bytes.now }
{
    let mut end = bytes.len();
    while end > 0 {
        if !is_blank_byte(bytes[end - 1]) {
            return &bytes[..end];
        }
        end -= 1;
    }
    &[]
}

// Whether a byte is a space or a tab.
fn is_blank_byte(byte: u8) -> bool
    ensures { result ≡ is_blank_byte byte }
{
    byte == b' ' || byte == b'\t'
}

// Whether a row has the column of a cell.
fn is_present(cell: &[u8]) -> bool
    ensures { result ≡ is_present cell.now }
{
    is_cross(cell) || (all_digits(cell) && !is_absent(cell))
}

// Whether a cell is `x` or `X`.
fn is_cross(cell: &[u8]) -> bool
    ensures { result ≡ is_cross cell.now }
{
    cell == b"x".as_slice() || cell == b"X".as_slice()
}

// Whether a row lacks the column of a cell.
fn is_absent(cell: &[u8]) -> bool
    ensures { result ≡ is_absent cell.now }
{
    cell.iter().all(|b| *b == b'0')
}
