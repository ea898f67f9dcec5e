// A drawn matrix, summed up.
ghost use Rattle.std.specs.Prelude.{◌≡◌, ◌≤◌, length, sum_by, IfOk};
ghost use Rattle.c1p_solve.specs.Answers.{HasAllOrders};
ghost use Rattle.row_model.specs.declared.TheConstants.{MAX_COLUMNS, MAX_ROWS};
ghost use Rattle.solve_replies.specs.Generated.{generated};
ghost use Rattle.pq_tree.specs.Outline.{Outline};
ghost use Rattle.row_model.specs.Rows.{RowList};
ghost use Rattle.solve_replies.specs.Summaries.{IsCounted, IsSummary, summary_text};
ghost use Rattle.solve_replies.specs.Steps.{made_status, SolvesMatrixWithin};

use crate::NoMemory;
use crate::draws::DrawnRows;
use crate::nodes::{Nodes, count_nodes};
use c1p_solve::{Step, begin, take_next, tree_so_far};
use pq_tree::PqTree;
use row_model::Matrix;
use std::alloc::Global;
use step_count::{Ledger, Steps};
use verdict_replies::Reply;

/// The reply with the summary of the matrix that a number draws: its ones, and the nodes of the canonical tree of all
/// its valid orders.
///
/// # Errors
///
/// Memory is refused.
pub fn summary_reply<L: Ledger>(
    alloc: Global,
    seed: u64,
    columns: u32,
    rows: u32,
    steps: &mut Steps<L>,
) -> Result<Reply, NoMemory>
    requires columns { (1 ≤ columns) × (columns ≤ MAX_COLUMNS) }
    requires rows { rows ≤ MAX_ROWS }
    ensures status { IfOk result (λ reply. reply.status ≡ 0) }
    ensures summary { IfOk result (λ reply. IsSummary seed columns rows reply.text.items) }
    ensures steps { SolvesMatrixWithin (generated seed columns rows)
        (made_status (λ reply. reply.status) result) steps.old steps.new }
{
    let Grown { tree, ones } = grow(alloc, seed, columns, rows, steps)?;
    let mut nodes = Nodes { p: 0, q: 0 };
    count_nodes(tree.root(), &mut nodes);
    summary(alloc, columns, rows, ones, nodes)
}

// The reply with a summary of these numbers.
fn summary(
    alloc: Global,
    columns: u32,
    rows: u32,
    ones: u64,
    nodes: Nodes,
) -> Result<Reply, NoMemory>
    ensures status { IfOk result (λ reply. reply.status ≡ 0) }
    ensures text { IfOk result (λ reply. (m : RowList) (t : Outline) → IsCounted m t columns rows ones nodes.p nodes.q
        → reply.text.items ≡ summary_text m t) }
{
    let text = format!(in alloc;
        "pq-gen 1\ncolumns {columns}\nrows {rows}\nones {ones}\nanswer yes\np {}\nq {}\nend\n",
        nodes.p, nodes.q
    )?;
    Ok(Reply {
        status: 0,
        text: text.into_bytes(),
    })
}

// The tree of all valid orders of a drawn matrix, and how many ones it has.
#[derive(Drop)]
struct Grown {
    tree: PqTree,
    ones: u64,
}

// The tree and the ones of the matrix that a number draws. Each row is taken as soon as it is drawn, and not kept.
fn grow<L: Ledger>(
    alloc: Global,
    seed: u64,
    columns: u32,
    rows: u32,
    steps: &mut Steps<L>,
) -> Result<Grown, NoMemory>
    requires columns { (1 ≤ columns) × (columns ≤ MAX_COLUMNS) }
    requires rows { rows ≤ MAX_ROWS }
    ensures tree { IfOk result (λ grown. HasAllOrders (generated seed columns rows) grown.tree) }
    ensures ones { IfOk result (λ grown. grown.ones ≡ sum_by length (generated seed columns rows).rows) }
    ensures steps { SolvesMatrixWithin (generated seed columns rows) (made_status (λ grown. 0) result)
        steps.old steps.new }
{
    let mut drawn = DrawnRows::new(alloc, seed, columns)?;
    let mut reducer = begin(alloc, columns)?;
    let mut row = Matrix::new(alloc, columns)?;
    let mut ones = 0;
    for _k in 0..rows {
        drawn.push_next(&mut row)?;
        ones += row.ones();
        match take_next(&mut reducer, &row, steps) {
            Step::Taken => row.pop_row(),
            Step::Refused => unreachable!(),
        }
    }
    let tree = tree_so_far(alloc, &reducer)?;
    Ok(Grown { tree, ones })
}
