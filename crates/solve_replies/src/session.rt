// A session: what becomes of further rows, told row by row.
ghost use Rattle.std.specs.Prelude.{◌≡◌, ◌+◌, ◌*◌, ◌<◌, ◌≤◌, min, ℕ, List, [], ◌∷◌, ◌++◌, length, IfOk, OnOk, codes};
ghost use Rattle.row_model.specs.Rows.{IsRow};
ghost use Rattle.verdict_text.specs.Text.{kind_line, columns_line};
ghost use Rattle.pq_tree.specs.Amortised.{weight};
ghost use Rattle.c1p_solve.specs.Sessions.{with_row};
ghost use Rattle.solve_replies.specs.Sessions.{Outcome, AreOutcomes, matrix_at_end, outcome_text, IsSessionText};
ghost use Rattle.solve_replies.specs.Taking.{outcome_of, refusals_at_end, HasTakenOne, HasTaken, HasEnded};
ghost use Rattle.solve_replies.specs.Steps.{taking_steps};
ghost use Rattle.solve_replies.specs.MetNodes.{AreMet, IsTreeNow};
ghost use Rattle.solve_replies.specs.Charges.{refused_steps, further_steps, further_search, IsOneCharged, one_steps};

use crate::{MAX_EXPLAINED, NoMemory};
use c1p_solve::{Session, Taken};
use plain_text::push_number;
use row_model::{Kind, Matrix, ROW_BOUND};
use std::alloc::Global;
use step_count::{Ledger, Steps};
use text_parts::push;
use verdict_replies::Reply;
use verdict_text::{Columns, print_cycle, print_side, print_subject};

/// The reply of a session that takes further rows.
pub fn session_reply<L: Ledger>(
    alloc: Global,
    kind: Kind,
    mut session: Session,
    further: &Matrix,
    steps: &mut Steps<L>,
) -> Result<Reply, NoMemory>
    requires columns { further.now.columns ≡ session.matrix.columns }
    requires room { length session.matrix.rows + length further.now.rows ≤ ROW_BOUND }
    ensures reply { IfOk result (λ reply.
        IsSessionText kind session.matrix further.now.rows reply.text.items) }
    ensures status { IfOk result (λ reply. reply.status ≡ 0) }
    ensures steps { IfOk result (λ reply. (outcomes : List Outcome)
        × AreOutcomes session.matrix 0 further.now.rows outcomes
        × (steps.new + taking_steps session.matrix ≤ steps.old + 256 * weight session.tree
        + taking_steps (matrix_at_end session.matrix further.now.rows outcomes)
        + refused_steps session.matrix further.now.rows (refusals_at_end 0 outcomes))
        × ((a : ℕ) × AreMet session.matrix further.now.rows outcomes a
        × (steps.new + taking_steps session.matrix ≤ steps.old + 256 * weight session.tree
        + taking_steps (matrix_at_end session.matrix further.now.rows outcomes) + 256 * a
        + min (refusals_at_end 0 outcomes) MAX_EXPLAINED * further_search session.matrix further.now.rows))) }
    ensures most { steps.new ≤ steps.old + 256 * weight session.tree
        + further_steps session.matrix further.now.rows }
{
    let mut text = Vec::with_capacity(alloc, room(further))?;
    print_start(kind, further.columns(), &mut text)?;
    print_outcomes(&mut session, further, &mut text, steps)?;
    print_end(alloc, &session, &mut text)?;
    Ok(Reply { status: 0, text })
}

// How many bytes the text has at most where no row is refused, as in a verdict, with up to 10 more for each of at most
// 999,999 rows.
fn room(further: &Matrix) -> usize
    ensures { result ≤ 96 + 12 * further.now.columns + 10 * length further.now.rows }
{
    96 + 12 * further.columns() as usize + 10 * further.rows() as usize
}

// The first three lines.
fn print_start(kind: Kind, columns: u32, text: &mut Vec<u8>) -> Result<(), NoMemory>
    ensures { OnOk result (text.new.items ≡ text.old.items ++
        (codes "pq-extend 1\n" ++ (kind_line kind ++ columns_line (columns ∷ [])))) }
{
    push(text, b"pq-extend 1\n")?;
    print_subject(kind, Columns::One(columns), text)
}

// Takes further rows in turn, and tells what became of each.
fn print_outcomes<L: Ledger>(
    session: &mut Session,
    further: &Matrix,
    text: &mut Vec<u8>,
    steps: &mut Steps<L>,
) -> Result<(), NoMemory>
    requires columns { further.now.columns ≡ session.old.matrix.columns }
    requires room { length session.old.matrix.rows + length further.now.rows ≤ ROW_BOUND }
    ensures taken { OnOk result ((count : ℕ) × (met : ℕ)
        × HasTaken session.old.matrix further.now.rows session.new.matrix count met text.old.items
        text.new.items
        × (steps.new + taking_steps session.old.matrix ≤ steps.old + 256 * weight session.old.tree
        + taking_steps session.new.matrix + refused_steps session.old.matrix further.now.rows count)
        × (steps.new + taking_steps session.old.matrix ≤ steps.old + 256 * weight session.old.tree
        + taking_steps session.new.matrix + 256 * met
        + min count MAX_EXPLAINED * further_search session.old.matrix further.now.rows)) }
    ensures most { steps.new ≤ steps.old + 256 * weight session.old.tree
        + further_steps session.old.matrix further.now.rows }
{
    let mut refusals = 0;
    for taken in 0..further.rows() {
        let row = further.row(taken + 1);
        refusals = take_one(session, taken + 1, row, refusals, text, steps)?;
    }
    Ok(())
}

// Takes a further row, the `i`-th, and tells what became of it. The answer is how many rows have been refused then.
fn take_one<L: Ledger>(
    session: &mut Session,
    i: u32,
    row: &[u32],
    refusals: u32,
    text: &mut Vec<u8>,
    steps: &mut Steps<L>,
) -> Result<u32, NoMemory>
    requires row { IsRow session.old.matrix.columns row.now }
    requires room { length session.old.matrix.rows < ROW_BOUND }
    requires few { refusals < i }
    ensures one { IfOk result (λ count.
        HasTakenOne session.old.matrix refusals i row.now session.new.matrix count text.old.items
        text.new.items) }
    ensures charged { IfOk result (λ count.
        IsOneCharged session.old.matrix.columns (with_row session.old.matrix row.now).rows row.now
        refusals count session.old.tree session.new.tree steps.old steps.new) }
    ensures tree { IfOk result (λ count. count ≡ refusals + 1 → IsTreeNow session.old.matrix session.old.tree) }
    ensures most { steps.new ≤ steps.old
        + one_steps session.old.matrix.columns (with_row session.old.matrix row.now).rows row.now
        refusals (weight session.old.tree) }
{
    let taken = session.take_row(row, refusals < MAX_EXPLAINED, steps)?;
    print_outcome(i, &taken, text)?;
    match taken {
        Taken::Ok => Ok(refusals),
        Taken::No(_) => Ok(refusals + 1),
    }
}

// What became of the `i`-th further row.
fn print_outcome(i: u32, taken: &Taken, text: &mut Vec<u8>) -> Result<(), NoMemory>
    ensures { OnOk result (text.new.items ≡ text.old.items ++ outcome_text i
        (outcome_of taken.now)) }
{
    push_number(text, u64::from(i))?;
    match taken {
        Taken::Ok => text.extend_from_slice(b" ok\n"),
        Taken::No(None) => text.extend_from_slice(b" no\n"),
        Taken::No(Some(cycle)) => {
            text.extend_from_slice(b" no\n")?;
            print_cycle(cycle.lines(), text)
        }
    }
}

// The tree of the session's rows, an order, and the last line.
fn print_end(alloc: Global, session: &Session, text: &mut Vec<u8>) -> Result<(), NoMemory>
    ensures { OnOk result (HasEnded session.now.matrix text.old.items text.new.items) }
{
    let tree = session.tree()?;
    let order = tree.frontier(alloc)?;
    print_side(&tree, &order, text)?;
    push(text, b"end\n")
}
