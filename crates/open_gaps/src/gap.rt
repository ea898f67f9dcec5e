// One gap of an order, and the rows over it.
ghost use Rattle.std.specs.Prelude.{◌≡◌, ℕ, ◌+◌, ◌-◌, ◌<◌, ◌≤◌, ◌⊎◌, ◌↔◌, List, length, slice_index, slice_index_or, IsTrue, MatchOption};
ghost use Rattle.open_gaps.specs.declared.gap.Gap.{Gap};
ghost use Rattle.open_gaps.specs.Gaps.{Opens, IsOpenAtAll, AreGaps};
ghost use Rattle.open_gaps.specs.Tables.{covered};

/// How far the rows over a gap leave it open: by `last_row` for the columns at the positions past `last`, and by
/// `first_row` for those at the positions before `first`. Positions count from 0.
#[derive(Clone, Copy)]
pub struct Gap {
    /// The least last position of a row over the gap.
    pub last: u32,
    /// A row with this last position.
    pub last_row: u32,
    /// The greatest first position of a row over the gap.
    pub first: u32,
    /// A row with this first position.
    pub first_row: u32,
}

// The gap with one row more over it.
fn with_row(gap: Gap, left: u32, right: u32, row: u32) -> Gap
    ensures { result ≡ covered gap left right row }
{
    let (last, last_row) = if right < gap.last {
        (right, row)
    } else {
        (gap.last, gap.last_row)
    };
    let (first, first_row) = if gap.first < left {
        (left, row)
    } else {
        (gap.first, gap.first_row)
    };
    Gap {
        last,
        last_row,
        first,
        first_row,
    }
}

// Takes a row from the position `left` to `right` over the gaps between them.
pub fn cover(gaps: &mut [Gap], left: u32, right: u32, row: u32)
    requires { (left ≤ right) × (right ≤ length gaps.old) }
    ensures inside { (q : ℕ) (d : Gap) → left ≤ q → q < right
        → slice_index_or gaps.new q d ≡ covered (slice_index_or gaps.old q d) left right row }
    ensures outside { (q : ℕ) (d : Gap) → (q < left) ⊎ (right ≤ q) → slice_index_or gaps.new q d ≡ slice_index_or gaps.old q d }
{
    for q in left..right {
        gaps[q as usize] = with_row(gaps[q as usize], left, right, row);
    }
}

// A row that opens the gap behind the position `q` for the column at the position `p`.
pub fn opener(gaps: &[Gap], q: u32, p: u32) -> Option<u32>
    requires places { (q + 1 < length gaps.now) × (p < length gaps.now) }
    requires few { length gaps.now ≤ 32768 }
    ensures { (rows : List (List ℕ)) (o : List ℕ) → length o ≡ length gaps.now → AreGaps rows o gaps.now
        → MatchOption result ((k : ℕ) → Opens rows o k q (slice_index o p) → ⊥) (λ k. Opens rows o k q (slice_index o p)) }
{
    let gap = gaps[q as usize];
    if q + 1 < p && gap.last < p {
        Some(gap.last_row)
    } else if p < q && p < gap.first {
        Some(gap.first_row)
    } else {
        None
    }
}

// Whether the gap behind the position `q` is open for some column. Then it is for the first or for the last one.
pub fn is_open_at_all(gaps: &[Gap], q: u32) -> bool
    requires places { q + 1 < length gaps.now }
    requires few { length gaps.now ≤ 32768 }
    ensures { (rows : List (List ℕ)) (o : List ℕ) → length o ≡ length gaps.now → AreGaps rows o gaps.now → IsTrue result ↔ IsOpenAtAll rows o q }
{
    let end = gaps.len() as u32 - 1;
    opener(gaps, q, 0).is_some() || opener(gaps, q, end).is_some()
}

// Whether the gap before the position `x` is open for some column.
pub fn is_open_before(gaps: &[Gap], x: u32) -> bool
    requires places { x < length gaps.now }
    requires few { length gaps.now ≤ 32768 }
    ensures { (rows : List (List ℕ)) (o : List ℕ) → length o ≡ length gaps.now → AreGaps rows o gaps.now → IsTrue result ↔ ((1 ≤ x) × IsOpenAtAll rows o (x - 1)) }
{
    x > 0 && is_open_at_all(gaps, x - 1)
}

// Whether the gap behind the position `x`, if there is one, is open for some column.
pub fn is_open_behind(gaps: &[Gap], x: u32) -> bool
    requires places { x < length gaps.now }
    requires few { length gaps.now ≤ 32768 }
    ensures { (rows : List (List ℕ)) (o : List ℕ) → length o ≡ length gaps.now → AreGaps rows o gaps.now → IsTrue result ↔ ((x + 1 < length o) × IsOpenAtAll rows o x) }
{
    x as usize + 1 < gaps.len() && is_open_at_all(gaps, x)
}
