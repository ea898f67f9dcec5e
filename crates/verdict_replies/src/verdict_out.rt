// The text of a verdict.
ghost use Rattle.std.specs.Prelude.{◌≡◌, ◌≤◌, IfOk};
ghost use Rattle.column_order.specs.Orders.{HasValidOrder};
ghost use Rattle.row_model.specs.Cycles.{IsOddCycle};
ghost use Rattle.row_model.specs.Rows.{RowList};
ghost use Rattle.row_model.specs.declared.TheConstants.{MAX_COLUMNS};
ghost use Rattle.odd_cycle.specs.Short.{IsShort};
ghost use Rattle.row_judge.specs.Judges.{IsFirstConflict};
ghost use Rattle.instance_model.specs.Instance.{plain, IsInstance};
ghost use Rattle.verdict_text.specs.Text.{verdict_text};
ghost use Rattle.verdict_text.specs.Value.{verdict_value};
ghost use Rattle.verdict_replies.specs.Verdicts.{IsVerdictReply};

use crate::{NoMemory, Reply};
use odd_cycle::Cycle;
use row_model::Kind;
use std::alloc::Global;
use verdict_text::{Columns, NoPart, Part, Verdict, Version, print};

/// The reply on a matrix without a valid order, which its cycle shows. It is a reply of `solve` where the cycle has at
/// most one flip, and with c columns at most c(c - 1)/2 + 1 lines, and is one of the rows up to the first that leaves
/// no valid order with those before it.
///
/// # Errors
///
/// `NoMemory`.
pub fn no_reply(alloc: Global, kind: Kind, columns: u32, cycle: Cycle) -> Result<Reply, NoMemory>
    requires { (1 ≤ columns) × (columns ≤ MAX_COLUMNS) }
    ensures reply { IfOk result (λ reply.
        (m : RowList) → m.columns ≡ columns → IsInstance (plain kind m)
        → IsOddCycle m.columns m.rows cycle → IsShort m.columns cycle → IsFirstConflict m cycle → (HasValidOrder m.columns m.rows → ⊥)
        → IsVerdictReply (plain kind m) 1 reply.text.items) }
    ensures status { IfOk result (λ reply. reply.status ≡ 1) }
{
    let verdict = Verdict {
        version: Version::Two,
        kind,
        columns: Columns::One(columns),
        part: Part::No(no(1, cycle)),
    };
    let text = printed(alloc, &verdict)?;
    Ok(Reply { status: 1, text })
}

/// A no about a side, with the lines of the cycle.
pub fn no(side: u8, cycle: Cycle) -> NoPart
    ensures side { result.side ≡ side }
    ensures lines { result.lines ≡ cycle }
{
    NoPart {
        side,
        lines: cycle.into_lines(),
    }
}

/// The text of a verdict.
///
/// # Errors
///
/// `NoMemory`.
pub fn printed(alloc: Global, verdict: &Verdict) -> Result<Vec<u8>, NoMemory>
    ensures { IfOk result (λ text. text.items ≡ verdict_text (verdict_value verdict.now)) }
{
    let mut text = Vec::with_capacity(alloc, room(verdict))?;
    print(verdict, &mut text)?;
    Ok(text)
}

// How many bytes the text has at most, where there are at most 9,999 columns and 999,999 rows. In a yes each column has
// 12: its number stands in the tree and in the order, after a space or a bracket, and the tree has fewer nodes with
// brackets than leaves. An interval of such a graph has 32, the place of a clone 23, and a contig, of which there are
// no more than columns, 17. In a no each line has 21.
fn room(verdict: &Verdict) -> usize {
    let columns = match verdict.columns {
        Columns::One(c) => c as usize,
        Columns::Two(c, d) => c as usize + d as usize,
    };
    let each = match verdict.kind {
        Kind::Proper => 12 + 32,
        Kind::Clones => 12 + 17,
        _ => 12,
    };
    match &verdict.part {
        Part::Yes(yes) => 128 + each * columns + 23 * yes.places().len(),
        Part::No(no) => 96 + 21 * no.lines.as_slice().len(),
    }
}
