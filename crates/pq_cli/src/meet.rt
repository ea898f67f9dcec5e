// `meet`: the orders that two trees share.
ghost use Rattle.std.specs.Prelude.{◌≤◌};
ghost use Rattle.row_model.specs.declared.TheConstants.{MAX_COLUMNS};
ghost use Rattle.command_input.specs.Words.{Meet};
ghost use Rattle.pq_cli.specs.Runs.{RunsCommand};
ghost use Rattle.pq_cli.specs.Steps.{CountsReply};

use crate::input::read_file;
use crate::meet::tree_file::TreeFile;
use crate::stop::Stop;
use commands::{Reply, meeting_reply};
use file_io::Shelf;
use solve_replies::Solver;
use std::alloc::Global;
use step_count::{Ledger, Steps};

pub mod tree_file;

/// Tells what the trees in two files share, both over so many columns.
///
/// # Errors
///
/// What stood in the way of the reply.
#[inline(never)]
pub fn meet_files<F: Shelf, L: Ledger>(
    alloc: Global,
    columns: u32,
    first: &str,
    second: &str,
    files: &mut F,
    steps: &mut Steps<L>,
) -> Result<Reply, Stop>
    requires { (1 ≤ columns) × (columns ≤ MAX_COLUMNS) }
    ensures runs { RunsCommand F.content F.taken F.faults files.old files.new
        (Meet columns first.now second.now) result }
    ensures steps { CountsReply F.taken files.old files.new (Meet columns first.now second.now)
        result steps.old steps.new }
{
    let form = TreeFile { columns };
    let one = read_file(alloc, &form, 1, first, files)?;
    let other = read_file(alloc, &form, 2, second, files)?;
    Ok(meeting_reply(alloc, &mut Solver, &one, &other, steps)?)
}
