// The gaps of an order that is valid for the first rows of a matrix.
ghost use Rattle.std.specs.Prelude.{◌≡◌, ◌⊎◌, ℕ, ◌+◌, ◌-◌, ◌<◌, ◌≤◌, List, None, length, sum_by, take, slice_index, slice_index_or, IfOk, IfSome, OnOk, IsTrue, MatchOption, ◌↔◌};
ghost use Rattle.column_order.specs.Orders.{IsOrder, IsValidOrder, place};
ghost use Rattle.row_model.specs.Positions.{ArePositions};
ghost use Rattle.row_model.specs.Graph.{pair, IsPair, JoinedBy};
ghost use Rattle.open_gaps.specs.declared.gap.Gap.{Gap};
ghost use Rattle.open_gaps.specs.Gaps.{Opens, LeadsOver, IsOpen, IsAtOpenGap, AreGaps};
ghost use Rattle.open_gaps.specs.Tables.{covered};

use crate::gap::{Gap, cover, is_open_before, is_open_behind, opener};
use row_model::{COLUMN_BOUND, CountedRows, Line, NoMemory, Pair, Span, Why, positions};
use std::alloc::Global;
use std::marker::Model;
use step_count::{Ledger, Steps};

/// An order that is valid for the first rows of a matrix, and for each of its gaps the columns for which these rows
/// leave it open. It takes 24 bytes for each column.
pub struct OpenGaps {
    order: Vec<u32>,
    positions: Vec<u32>,
    gaps: Vec<Gap>,
}

// By hand, so that a place where it is dropped proves one call and does not take its parts apart.
impl Drop for OpenGaps {
    fn drop(self) {
        let OpenGaps {
            order: _order,
            positions: _positions,
            gaps: _gaps,
        } = self;
    }
}

impl Model for OpenGaps {
    ghost use Rattle.open_gaps.specs.Tables.{GapTable};

    ghost Value = { GapTable };

    ghost use Rattle.open_gaps.specs.Tables.{table_within, HasEachGap};

    ghost view = { table_within };

    ghost invariant = { HasEachGap };
}

impl OpenGaps {
    /// The gaps of an order, as the first `rows` rows leave them open. A step is counted for each one in these rows.
    ///
    /// # Errors
    ///
    /// `NoMemory`.
    pub fn new<L: Ledger>(
        alloc: Global,
        m: &CountedRows,
        rows: u32,
        order: &[u32],
        steps: &mut Steps<L>,
    ) -> Result<Self, NoMemory>
        requires rows { rows ≤ length m.now.rows }
        requires order { IsValidOrder m.now.columns (take rows m.now.rows) order.now }
        ensures order { IfOk result (λ t. t.order ≡ order.now) }
        ensures gaps { IfOk result (λ t. AreGaps (take rows m.now.rows) order.now t.gaps) }
        ensures ticks { steps.new ≤ steps.old + sum_by length (take rows m.now.rows) }
        ensures turns { OnOk result (steps.old + sum_by length (take rows m.now.rows) ≤ steps.new) }
    {
        // A matrix has few enough columns for positions.
        let _columns = m.columns();
        let positions = positions(alloc, order)?;
        let gaps = gaps_of(alloc, m, rows, &positions, steps)?;
        Self::of_parts(alloc, order, positions, gaps)
    }

    // An order, copied, with the position of each of its columns and its gaps.
    fn of_parts(
        alloc: Global,
        order: &[u32],
        positions: Vec<u32>,
        gaps: Vec<Gap>,
    ) -> Result<Self, NoMemory>
        requires order { IsOrder (length order.now) order.now }
        requires few { length order.now ≤ COLUMN_BOUND }
        requires positions { ArePositions order.now positions.items }
        requires gaps { length gaps.items ≡ length order.now }
        ensures order { IfOk result (λ t. t.order ≡ order.now) }
        ensures gaps { IfOk result (λ t. t.gaps ≡ gaps.items) }
    {
        Ok(OpenGaps {
            order: order.to_vec(alloc)?,
            positions,
            gaps,
        })
    }

    /// The number of columns of the order.
    pub fn columns(&self) -> u32
        ensures columns { result ≡ length self.now.order }
        ensures range { result ≤ COLUMN_BOUND }
    {
        self.order.len() as u32
    }

    /// Whether a row has the columns at the positions `q` and `q + 1` and lacks the one at the position
    /// `p`. Positions count from 0.
    pub fn is_open(&self, q: u32, p: u32) -> bool
        requires { (q + 1 < length self.now.order) × (p < length self.now.order) }
        ensures { (rows : List (List ℕ)) → AreGaps rows self.now.order self.now.gaps → IsTrue result ↔ IsOpen rows self.now.order q p }
    {
        opener(&self.gaps, q, p).is_some()
    }

    /// Whether one of the gaps beside a column is open for some column.
    pub fn is_at_open_gap(&self, column: u32) -> bool
        requires { (1 ≤ column) × (column ≤ length self.now.order) }
        ensures { (rows : List (List ℕ)) → AreGaps rows self.now.order self.now.gaps → IsTrue result ↔ IsAtOpenGap rows self.now.order column }
    {
        let x = self.place(column);
        is_open_before(&self.gaps, x) || is_open_behind(&self.gaps, x)
    }

    /// From a pair (a,b) the pair (b,d), where d stands right before a in the order, with the number of a row that has
    /// both a and d and lacks b, and so joins the two. None where there is no such row.
    pub fn before(&self, v: Pair) -> Option<Line>
        requires { IsPair (length self.now.order) v }
        ensures joined { (rows : List (List ℕ)) → AreGaps rows self.now.order self.now.gaps
            → IfSome result (λ line. JoinedBy (length self.now.order) rows line.pair v line.why) }
        ensures opened { (rows : List (List ℕ)) → AreGaps rows self.now.order self.now.gaps
            → IfSome result (λ line. (q : ℕ) × (q + 1 ≡ place self.now.order v.a) × LeadsOver rows self.now.order q q v line) }
        ensures whole { (rows : List (List ℕ)) → AreGaps rows self.now.order self.now.gaps
            → (k q : ℕ) → q + 1 ≡ place self.now.order v.a → Opens rows self.now.order k q v.b
            → MatchOption result ⊥ (λ line. line.pair ≡ pair v.b (slice_index self.now.order q)) }
    {
        let x = self.place(v.a);
        let p = self.place(v.b);
        if x == 0 {
            return None;
        }
        match opener(&self.gaps, x - 1, p) {
            None => None,
            Some(row) => Some(line_to(v.b, self.column_at(x - 1), row)),
        }
    }

    /// The same where d stands right behind a.
    pub fn behind(&self, v: Pair) -> Option<Line>
        requires { IsPair (length self.now.order) v }
        ensures joined { (rows : List (List ℕ)) → AreGaps rows self.now.order self.now.gaps
            → IfSome result (λ line. JoinedBy (length self.now.order) rows line.pair v line.why) }
        ensures opened { (rows : List (List ℕ)) → AreGaps rows self.now.order self.now.gaps
            → IfSome result (λ line. (place self.now.order v.a + 1 < length self.now.order)
            × LeadsOver rows self.now.order (place self.now.order v.a) (place self.now.order v.a + 1) v line) }
        ensures whole { (rows : List (List ℕ)) → AreGaps rows self.now.order self.now.gaps
            → (k : ℕ) → place self.now.order v.a + 1 < length self.now.order
            → Opens rows self.now.order k (place self.now.order v.a) v.b
            → MatchOption result ⊥ (λ line. line.pair ≡ pair v.b (slice_index self.now.order (place self.now.order v.a + 1))) }
    {
        let x = self.place(v.a);
        let p = self.place(v.b);
        if x as usize + 1 == self.order.len() {
            return None;
        }
        match opener(&self.gaps, x, p) {
            None => None,
            Some(row) => Some(line_to(v.b, self.column_at(x + 1), row)),
        }
    }

    // The position of a column, from 0.
    fn place(&self, column: u32) -> u32
        requires { (1 ≤ column) × (column ≤ length self.now.order) }
        ensures { (result ≡ place self.now.order column) × (result < length self.now.order) }
    {
        self.positions[column as usize - 1] - 1
    }

    // The column at a position, from 0.
    fn column_at(&self, position: u32) -> u32
        requires { position < length self.now.order }
        ensures { result ≡ slice_index self.now.order position }
    {
        self.order[position as usize]
    }
}

// The line of the pair (b,d), for a row.
fn line_to(b: u32, d: u32, row: u32) -> Line
    ensures { (result.pair ≡ pair b d) × (result.why ≡ Why.Row row) }
{
    Line {
        pair: Pair { a: b, b: d },
        why: Why::Row(row),
    }
}

// The gaps of the order of these positions, which is valid for the first `rows` rows.
fn gaps_of<L: Ledger>(
    alloc: Global,
    m: &CountedRows,
    rows: u32,
    positions: &[u32],
    steps: &mut Steps<L>,
) -> Result<Vec<Gap>, NoMemory>
    requires rows { rows ≤ length m.now.rows }
    requires order { (o : List ℕ) × IsValidOrder m.now.columns (take rows m.now.rows) o × ArePositions o positions.now }
    ensures len { IfOk result (λ gaps. length gaps.items ≡ m.now.columns) }
    ensures gaps { IfOk result (λ gaps. (o : List ℕ) → IsValidOrder m.now.columns (take rows m.now.rows) o
        → ArePositions o positions.now → AreGaps (take rows m.now.rows) o gaps.items) }
    ensures ticks { steps.new ≤ steps.old + sum_by length (take rows m.now.rows) }
    ensures turns { OnOk result (steps.old + sum_by length (take rows m.now.rows) ≤ steps.new) }
{
    let mut gaps = vec![in alloc; uncovered(m.columns()); m.columns() as usize]?;
    for k in 0..rows {
        let span = m.span_counted(k + 1, positions, steps);
        take_row(&mut gaps, span, k + 1);
    }
    Ok(gaps)
}

// A gap between two of so many columns with no row over it.
fn uncovered(columns: u32) -> Gap
    ensures { result ≡ record { last = columns; last_row = 0; first = 0; first_row = 0 } }
{
    Gap {
        last: columns,
        last_row: 0,
        first: 0,
        first_row: 0,
    }
}

// Takes a row over the gaps within its span; a row with no column has none.
fn take_row(gaps: &mut Vec<Gap>, span: Option<Span>, row: u32)
    requires within { IfSome span (λ s. (1 ≤ s.first) × (s.first ≤ s.last) × (s.last ≤ length gaps.old.items)) }
    ensures len { length gaps.new.items ≡ length gaps.old.items }
    ensures none { span ≡ None → gaps.new.items ≡ gaps.old.items }
    ensures inside { IfSome span (λ s. (q : ℕ) (d : Gap) → s.first - 1 ≤ q → q < s.last - 1
        → slice_index_or gaps.new.items q d ≡ covered (slice_index_or gaps.old.items q d) (s.first - 1) (s.last - 1) row) }
    ensures outside { IfSome span (λ s. (q : ℕ) (d : Gap) → (q < s.first - 1) ⊎ (s.last - 1 ≤ q)
        → slice_index_or gaps.new.items q d ≡ slice_index_or gaps.old.items q d) }
{
    if let Some(span) = span {
        cover(gaps, span.first - 1, span.last - 1, row);
    }
}
