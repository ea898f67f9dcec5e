// Lines that are folded already.
ghost use Rattle.std.specs.Prelude.{◌≡◌, ◌⊎◌, ◌↔◌, ◌∷◌, ◌++◌, [], IfOk, IsTrue};
ghost use Rattle.row_model.specs.declared.graph.Line.{Line};
ghost use Rattle.row_model.specs.declared.graph.Why.TheVariants.{Flip};
ghost use Rattle.odd_cycle.specs.Short.{flips, IsFolded};

use crate::sorted::{is_rising, sorted_columns};
use row_model::{Line, NoMemory, Why};
use std::alloc::Global;

/// `true` only where no line but the last is a flip, and no two lines before that flip have the same two columns. It
/// takes room for each line.
///
/// # Errors
///
/// `NoMemory`.
pub fn is_folded(alloc: Global, lines: &[Line]) -> Result<bool, NoMemory>
    ensures { IfOk result (λ yes. IsTrue yes → IsFolded lines.now) }
{
    let path = without_last_flip(lines);
    if has_flip(path) {
        return Ok(false);
    }
    let columns = sorted_columns(alloc, path)?;
    Ok(is_rising(&columns))
}

// The lines without the last one, if that is a flip.
fn without_last_flip(lines: &[Line]) -> &[Line]
    ensures { (lines.now ≡ result.now) ⊎ ((last : Line) × (last.why ≡ Flip) × (lines.now ≡ result.now ++ last ∷ [])) }
{
    match lines.split_last() {
        Some((last, path)) if is_flip(last.why) => path,
        _ => lines,
    }
}

// Whether some line is a flip.
fn has_flip(lines: &[Line]) -> bool
    ensures { IsTrue result ⊎ (flips lines.now ≡ 0) }
{
    for line in lines {
        if is_flip(line.why) {
            return true;
        }
    }
    false
}

// Whether the reason is a flip.
fn is_flip(why: Why) -> bool
    ensures { IsTrue result ↔ (why ≡ Flip) }
{
    match why {
        Why::Flip => true,
        Why::Row(_) => false,
    }
}
