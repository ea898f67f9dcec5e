// The rows of a list that the cycle of their part names.
ghost use Rattle.std.specs.Prelude.{◌≡◌, ◌≤◌, ◌+◌, ◌-◌, ℕ, false, drop, length, map, slice_index_or, take, IfOk};
ghost use Rattle.std.specs.Prelude.{◌++◌};
ghost use Rattle.row_model.specs.Rows.{RowList};
ghost use Rattle.row_model.specs.Cycles.{IsOddCycle};
ghost use Rattle.odd_cycle.specs.Short.{IsShort};
ghost use Rattle.row_judge.specs.Judges.{IsFirstConflict};
ghost use Rattle.core_text.specs.Cores.{AreRowNumbers, rows_at};
ghost use Rattle.row_core.specs.Blamed.{part_at, rotated, whole_line, IsReasonWithin, AreReasonsWithin, AreMarked, with_mark, marked_from, IsBlamed, AreNeeded};

use odd_cycle::Cycle;
use row_model::{Line, Lines, NoMemory, Why};
use std::alloc::Global;

/// Rows that have no valid order together, as an odd cycle shows that has no other rows as reasons.
#[derive(Drop)]
pub struct Blamed {
    /// The rows, from 1, in strictly ascending order.
    pub rows: Vec<u32>,
    /// How many of the first of them are still to be left out, to see whether they are needed. The others are needed,
    /// if the judge goes through the rows in turn.
    pub untried: usize,
    /// The lines of the cycle.
    pub lines: Lines,
}

/// The rows that are to blame of a list, of which the first `needed` are needed: those, and the further ones that a
/// cycle names. The cycle is one of the part of the matrix in these rows, in which they are numbered by their places.
///
/// The last further one is needed too, where the rows of the cycle come no later than the first row that leaves no
/// valid order with those before it in the list.
pub fn blame(alloc: Global, list: &[u32], needed: usize, cycle: &Cycle) -> Result<Blamed, NoMemory>
    requires within { AreReasonsWithin (length list.now) cycle.now }
    requires needed { needed ≤ length list.now }
    ensures blamed { IfOk result (λ blamed. (m : RowList)
        → AreRowNumbers (length m.rows) (rotated needed list.now)
        → IsOddCycle m.columns (rows_at m.rows list.now) cycle.now
        → IsShort m.columns cycle.now
        → IsBlamed m blamed) }
    ensures needed { IfOk result (λ blamed. (m : RowList)
        → AreRowNumbers (length m.rows) (rotated needed list.now)
        → AreNeeded m (rotated needed list.now) (length list.now - needed)
        → IsFirstConflict (part_at m list.now) cycle.now
        → AreNeeded m blamed.rows.items blamed.untried) }
    ensures few { IfOk result (λ blamed. length blamed.rows.items ≤ length list.now) }
    ensures more { IfOk result (λ blamed. (needed ≤ length blamed.rows.items)
        × (blamed.untried ≡ length blamed.rows.items - needed - 1)) }
{
    let marks = marks_of(alloc, list.len(), cycle.lines())?;
    let mut rows = marked(alloc, list, needed, &marks)?;
    let untried = rows.len().saturating_sub(1);
    rows.extend_from_slice(&list[..needed])?;
    let lines = whole_lines(alloc, list, cycle.lines())?;
    Ok(Blamed {
        rows,
        untried,
        lines,
    })
}

// A mark at each of so many rows that the lines name, and at no other.
fn marks_of(alloc: Global, count: usize, lines: &[Line]) -> Result<Vec<bool>, NoMemory>
    requires { AreReasonsWithin count lines.now }
    ensures marked { IfOk result (λ marks. AreMarked marks.items lines.now) }
    ensures others { IfOk result (λ marks. (n : ℕ)
        → AreReasonsWithin n lines.now
        → (i : ℕ) → n ≤ i → slice_index_or marks.items i false ≡ false) }
    ensures size { IfOk result (λ marks. length marks.items ≡ count) }
{
    let mut marks = vec![in alloc; false; count]?;
    for line in lines {
        mark(&mut marks, line.why);
    }
    Ok(marks)
}

// Marks the row that a reason names, if it names one.
fn mark(marks: &mut Vec<bool>, why: Why)
    requires { IsReasonWithin (length marks.old.items) why }
    ensures { marks.new.items ≡ with_mark marks.old.items why }
{
    match why {
        Why::Flip => {}
        Why::Row(i) => marks[i as usize - 1] = true,
    }
}

// The numbers from some place on at whose places there is a mark.
fn marked(alloc: Global, list: &[u32], from: usize, marks: &[bool]) -> Result<Vec<u32>, NoMemory>
    requires marks { length marks.now ≡ length list.now }
    requires from { from ≤ length list.now }
    ensures { IfOk result (λ rows. rows.items ≡ marked_from marks.now from (drop from list.now)) }
{
    let mut rows = Vec::new(alloc);
    for i in from..list.len() {
        if marks[i] {
            rows.push(list[i])?;
        }
    }
    Ok(rows)
}

// The lines in the whole matrix of lines in the part.
fn whole_lines(alloc: Global, list: &[u32], lines: &[Line]) -> Result<Lines, NoMemory>
    requires { AreReasonsWithin (length list.now) lines.now }
    ensures { IfOk result (λ whole. whole ≡ map (whole_line list.now) lines.now) }
{
    let mut whole = Lines::with_capacity(alloc, lines.len())?;
    for line in lines {
        whole.push(whole_line(list, *line))?;
    }
    Ok(whole)
}

// The line in the whole matrix of a line in the part.
fn whole_line(list: &[u32], line: Line) -> Line
    requires { IsReasonWithin (length list.now) line.why }
    ensures { result ≡ whole_line list.now line }
{
    let why = match line.why {
        Why::Flip => Why::Flip,
        Why::Row(i) => Why::Row(list[i as usize - 1]),
    };
    Line {
        pair: line.pair,
        why,
    }
}
