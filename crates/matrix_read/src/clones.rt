// A matrix as probes and clones in JSON.
ghost use Rattle.std.specs.Prelude.{◌≡◌, ◌+◌, ◌≤◌, ◌<◌, ◌∷◌, ℕ, [], drop, map, false, true, length, take, slice_index_or, Some, None, IfOk, IfErr, OnOk};
ghost use Rattle.std.specs.List.{list_all};
ghost use Rattle.row_model.specs.declared.code.TheConstants.{RANGE};
ghost use Rattle.column_order.specs.Orders.{has};
ghost use Rattle.text_lines.specs.Rows.{refused_or};
ghost use Rattle.matrix_read.specs.Clones.{is_probe, column_of, names_code, clones};
ghost use Rattle.matrix_read.specs.CloneNames.{names_view, clones_view, list_view, row_of_clone, names_matrix, matrix_of_names, matrix_named};
ghost use Rattle.matrix_read.specs.CloneRows.{CloneLaw};
ghost use Rattle.matrix_read.specs.Marks.{AreMarkedColumns};
ghost use Rattle.matrix_read.specs.Names.{has_twice, bytes_of};

use crate::clone_names::{CloneNames, names_in};
use crate::rows::{mark_column, refused, take_listed};
use indexmap::IndexSet;
use json::Scratch;
use row_model::{MAX_COLUMNS, MAX_FILE_BYTES, MAX_ROWS, Matrix, NoMemory, Read, Refusal, code};
use std::alloc::Global;
use text_lines::without_mark;

/// Reads a matrix from the bytes of a clone file: one value in JSON, an object with the arrays `probes` and `clones`.
///
/// The probes are 1 to [`MAX_COLUMNS`] strings, no two of them equal: the j-th is column j. The clones are at most
/// [`MAX_ROWS`] objects, each with an array `probes` of strings, and each of these is one of the probes: the i-th clone
/// is row i. A probe that is named twice in a clone counts once. Other keys are passed over. Of two equal keys the last
/// counts. A byte order mark at the start is passed over.
///
/// A file that breaks a rule gives its first refusal. The length of the file comes first, then bytes that `serde_json`
/// does not read. Then come the shape of the object, the number of probes, a probe that occurs twice, and the number of
/// clones. Last come the clones in turn, each with its number as the line: its shape is judged before its names.
///
/// Beside the matrix it keeps the names that the file has, as they stand there: sixteen bytes for each, and for each
/// clone a list of its own. Names with escapes stand in a copy, which is as long as the file. Nothing is kept of keys
/// and values that are passed over.
///
/// # Errors
///
/// [`NoMemory`] where memory is refused.
#[inline(never)]
pub fn read_clones(alloc: Global, bytes: &[u8]) -> Result<Read<Matrix>, NoMemory>
    ensures { IfOk result (λ read. read ≡ clones bytes.now) }
{
    if bytes.len() as u64 > MAX_FILE_BYTES {
        return Ok(refused(code::LIMIT, 0));
    }
    let mut scratch = Scratch::new(alloc);
    match names_in(alloc, without_mark(bytes), &mut scratch)? {
        None => Ok(refused(code::JSON, 0)),
        Some(file) => matrix_in(alloc, &file),
    }
}

// The matrix of what a file names, or its first refusal.
fn matrix_in(alloc: Global, file: &CloneNames<'_>) -> Result<Read<Matrix>, NoMemory>
    ensures { IfOk result (λ read. read ≡ matrix_named (names_view file.now.probes) (list_view file.now.clones)) }
{
    let Some(probes) = &file.probes else {
        return Ok(refused(code::SHAPE, 0));
    };
    let Some(clones) = &file.clones else {
        return Ok(refused(code::SHAPE, 0));
    };
    matrix_of(alloc, probes, clones)
}

// The matrix of probes and the probes of each clone, or their first refusal.
fn matrix_of(
    alloc: Global,
    probes: &[&str],
    clones: &[Option<Vec<&str>>],
) -> Result<Read<Matrix>, NoMemory>
    ensures { IfOk result (λ read. read ≡ matrix_of_names (bytes_of probes.now) (clones_view clones.now)) }
{
    if probes.is_empty() {
        return Ok(refused(code::EMPTY, 0));
    }
    if probes.len() > MAX_COLUMNS as usize {
        return Ok(refused(code::LIMIT, 0));
    }
    let mut names = IndexSet::new(alloc);
    matrix_over(alloc, &mut names, probes, clones)
}

// The same of some probes, which are not too many. They are put into `names`, which are none before.
fn matrix_over<'a>(
    alloc: Global,
    names: &mut IndexSet<&'a str>,
    probes: &[&'a str],
    clones: &[Option<Vec<&str>>],
) -> Result<Read<Matrix>, NoMemory>
    requires none { names.old.keys ≡ [] }
    requires some { 0 < length probes.now }
    requires small { length probes.now ≤ MAX_COLUMNS }
    ensures { IfOk result (λ read. read ≡ matrix_of_names (bytes_of probes.now) (clones_view clones.now)) }
{
    if !put_names(names, probes)? {
        return Ok(refused(code::TWICE, 0));
    }
    if clones.len() > MAX_ROWS as usize {
        return Ok(refused(code::LIMIT, 0));
    }
    clone_matrix(alloc, names, clones)
}

// Puts the names of a list into `names`, which are none before, in their order, and says whether no two are equal.
fn put_names<'a>(names: &mut IndexSet<&'a str>, list: &[&'a str]) -> Result<bool, NoMemory>
    requires { names.old.keys ≡ [] }
    ensures twice { IfOk result (λ once. once ≡ false → has_twice (bytes_of list.now) ≡ true) }
    ensures once { IfOk result (λ once. once ≡ true → has_twice (bytes_of list.now) ≡ false) }
    ensures names { IfOk result (λ once. once ≡ true → bytes_of names.new.keys ≡ bytes_of list.now) }
{
    for place in 0..list.len() {
        match names.insert(name_at(list, place)) {
            Err(_) => return Err(NoMemory),
            Ok(false) => return Ok(false),
            Ok(true) => {}
        }
    }
    Ok(true)
}

// The name at a place of a list.
fn name_at<'a>(list: &[&'a str], place: usize) -> &'a str
    requires { place < length list.now }
    ensures { bytes_of (drop place list.now) ≡ result.now ∷ bytes_of (drop (place + 1) list.now) }
{
    list[place]
}

// The matrix over the probes of these names with a row for each clone, or the first refusal of a clone.
fn clone_matrix(
    alloc: Global,
    names: &IndexSet<&str>,
    clones: &[Option<Vec<&str>>],
) -> Result<Read<Matrix>, NoMemory>
    requires some { 1 ≤ length names.now.keys }
    requires small { length names.now.keys ≤ MAX_COLUMNS }
    requires few { length clones.now ≤ MAX_ROWS }
    ensures { IfOk result (λ read. read ≡ names_matrix (bytes_of names.now.keys) (clones_view clones.now)) }
{
    let mut marks = vec![in alloc; false; names.len()]?;
    let mut columns = vec![in alloc; 0u32; names.len()]?;
    let matrix = Matrix::with_room(alloc, names.len() as u32, clones.len(), clones.len())?;
    filled(matrix, names, clones, &mut marks, &mut columns)
}

// Fills a matrix with the rows of clones. `marks` and `columns` have an entry for each probe, and no mark is set.
fn filled(
    mut matrix: Matrix,
    names: &IndexSet<&str>,
    clones: &[Option<Vec<&str>>],
    marks: &mut [bool],
    columns: &mut [u32],
) -> Result<Read<Matrix>, NoMemory>
    requires empty { matrix.rows ≡ [] }
    requires width { matrix.columns ≡ length names.now.keys }
    requires small { length names.now.keys ≤ MAX_COLUMNS }
    requires few { length clones.now ≤ MAX_ROWS }
    requires marks { length marks.old ≡ length names.now.keys }
    requires clear { (j : ℕ) → slice_index_or marks.old j false ≡ false }
    requires columns { length columns.old ≡ length names.now.keys }
    ensures { IfOk result (λ read. read ≡ names_matrix (bytes_of names.now.keys) (clones_view clones.now)) }
{
    match push_rows(&mut matrix, names, clones, marks, columns)? {
        Some(refusal) => Ok(Read::Refused(refusal)),
        None => Ok(Read::Ok(matrix)),
    }
}

// Adds the rows of clones to a matrix without rows, or gives their first refusal. Between two clones no mark is set.
fn push_rows(
    matrix: &mut Matrix,
    names: &IndexSet<&str>,
    clones: &[Option<Vec<&str>>],
    marks: &mut [bool],
    columns: &mut [u32],
) -> Result<Option<Refusal>, NoMemory>
    requires empty { matrix.old.rows ≡ [] }
    requires width { matrix.old.columns ≡ length names.now.keys }
    requires small { length names.now.keys ≤ MAX_COLUMNS }
    requires few { length clones.now ≤ MAX_ROWS }
    requires marks { length marks.old ≡ length names.now.keys }
    requires clear { (j : ℕ) → slice_index_or marks.old j false ≡ false }
    requires columns { length columns.old ≡ length names.now.keys }
    ensures { IfOk result (λ refusal. refused_or refusal matrix.new ≡ names_matrix (bytes_of names.now.keys) (clones_view clones.now)) }
{
    for (i, clone) in clones.iter().enumerate() {
        match row_in(clone, names, marks, columns) {
            Err(code) => {
                return Ok(Some(Refusal {
                    code,
                    line: i as u32 + 1,
                }));
            }
            Ok(ones) => matrix.push_row(&columns[..ones])?,
        }
    }
    Ok(None)
}

// How many columns the row of a clone has, which stand at the front of `columns` then; or the code of its refusal.
fn row_in(
    clone: &Option<Vec<&str>>,
    names: &IndexSet<&str>,
    marks: &mut [bool],
    columns: &mut [u32],
) -> Result<usize, u8>
    requires small { length names.now.keys ≤ MAX_COLUMNS }
    requires marks { length marks.old ≡ length names.now.keys }
    requires clear { (j : ℕ) → slice_index_or marks.old j false ≡ false }
    requires room { length marks.old ≤ length columns.old }
    ensures refused { IfErr result (λ code. names_code (bytes_of names.now.keys) (names_view clone.now) ≡ Some code) }
    ensures row { IfOk result (λ ones. (names_code (bytes_of names.now.keys) (names_view clone.now) ≡ None) × (take ones columns.new ≡ row_of_clone (bytes_of names.now.keys) (names_view clone.now))) }
    ensures within { IfOk result (λ ones. ones ≤ length columns.new) }
    ensures clear { OnOk result ((j : ℕ) → slice_index_or marks.new j false ≡ false) }
{
    let Some(list) = clone else {
        return Err(code::SHAPE);
    };
    let count = mark_names(list, names, marks, columns)?;
    Ok(take_listed(marks, columns, count))
}

// Marks the column of each string, and puts it at the front of `columns`, once each, as they come. Column 1 has the
// first mark. The value is how many there are, and the error is the code of a string that is no probe.
fn mark_names(
    list: &[&str],
    names: &IndexSet<&str>,
    marks: &mut [bool],
    columns: &mut [u32],
) -> Result<usize, u8>
    requires small { length names.now.keys ≤ MAX_COLUMNS }
    requires marks { length marks.old ≡ length names.now.keys }
    requires clear { (j : ℕ) → slice_index_or marks.old j false ≡ false }
    requires room { length marks.old ≤ length columns.old }
    ensures refused { IfErr result (λ code. (code ≡ RANGE) × (list_all (is_probe (bytes_of names.now.keys)) (bytes_of list.now) ≡ false)) }
    ensures named { OnOk result (list_all (is_probe (bytes_of names.now.keys)) (bytes_of list.now) ≡ true) }
    ensures marks { OnOk result ((j : ℕ) → j < length marks.old → slice_index_or marks.new j false ≡ has (map (column_of (bytes_of names.now.keys)) (bytes_of list.now)) (j + 1)) }
    ensures listed { IfOk result (λ count. AreMarkedColumns marks.new (take count columns.new)) }
    ensures within { IfOk result (λ count. count ≤ length columns.new) }
{
    let mut count = 0;
    for place in 0..list.len() {
        match names.get_index_of(name_at(list, place)) {
            None => return Err(code::RANGE),
            Some(index) => count = mark_column(index + 1, marks, columns, count),
        }
    }
    Ok(count)
}

/// The law of [`read_clones`]: a file within the limits is read as a matrix exactly where the value of its bytes is one
/// of probes and clones, no two probes equal, of which that is the matrix. Its columns are the probes, and its row i is
/// that of clone i, which names probes alone and has a column exactly where it names the probe at that place.
pub fn clone_law()
    ensures { CloneLaw }
{}
