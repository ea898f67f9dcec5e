// How many spans have two places, for each two.
ghost use Rattle.std.specs.Prelude.{◌≡◌, ◌+◌, ◌*◌, ◌-◌, ◌^◌, ◌<◌, ◌≤◌, ℕ, length, slice_index, slice_index_or, IfOk};
ghost use Rattle.row_model.specs.declared.lists.Span.{Span};
ghost use Rattle.std.proofs.Common.{suc};
ghost use Rattle.others_kept.specs.Counts.{sum_below, begins, LiesIn};

use row_model::{NoMemory, Span};
use std::alloc::Global;

// For each two places the number of spans that begin at the first and have the second.
pub(crate) fn beginnings(
    alloc: Global,
    columns: usize,
    spans: &[Span],
) -> Result<Vec<u32>, NoMemory>
    requires columns { columns ≤ 32768 }
    requires few { length spans.now ≤ 2 ^ 24 }
    requires within { (j : ℕ) (d : Span) → j < length spans.now → LiesIn columns (slice_index_or spans.now j d) }
    ensures square { IfOk result (λ counts. length counts.items ≡ columns * columns) }
    ensures cells { IfOk result (λ counts. (a b : ℕ) (d : Span) → a < columns → b < columns
        → slice_index counts.items (a * columns + b)
        ≡ sum_below (length spans.now) (λ j. begins a b (slice_index_or spans.now j d))) }
{
    let size = columns * columns;
    let mut counts = vec![in alloc; 0; size]?;
    for span in spans {
        begin(&mut counts, columns, *span);
    }
    Ok(counts)
}

// Counts one span more.
fn begin(counts: &mut Vec<u32>, columns: usize, span: Span)
    requires columns { columns ≤ 32768 }
    requires square { length counts.old.items ≡ columns * columns }
    requires within { LiesIn columns span }
    requires room { (a b : ℕ) → a < columns → b < columns → slice_index counts.old.items (a * columns + b) ≤ 2 ^ 24 }
    ensures square { length counts.new.items ≡ columns * columns }
    ensures cells { (a b : ℕ) → a < columns → b < columns
        → slice_index counts.new.items (a * columns + b)
        ≡ slice_index counts.old.items (a * columns + b) + begins a b span }
{
    let from = span.first as usize - 1;
    for place in from..span.last as usize {
        counts[from * columns + place] += 1;
    }
}

// Adds to each count those of the same second place and a lower first one.
pub(crate) fn add_up(counts: &mut Vec<u32>, columns: usize)
    requires columns { (1 ≤ columns) × (columns ≤ 32768) }
    requires square { length counts.old.items ≡ columns * columns }
    requires room { (a b : ℕ) → a < columns → b < columns
        → sum_below (suc a) (λ s. slice_index counts.old.items (s * columns + b)) ≤ 2 ^ 24 }
    ensures square { length counts.new.items ≡ columns * columns }
    ensures cells { (a b : ℕ) → a < columns → b < columns
        → slice_index counts.new.items (a * columns + b)
        ≡ sum_below (suc a) (λ s. slice_index counts.old.items (s * columns + b)) }
{
    for i in columns..counts.len() {
        counts[i] += counts[i - columns];
    }
}
