// `extend`: further rows, taken in turn after those of a matrix.
ghost use Rattle.command_input.specs.Words.{Extend, IsExtended};
ghost use Rattle.pq_cli.specs.Runs.{RunsCommand};
ghost use Rattle.pq_cli.specs.Steps.{CountsReply};

use crate::extend::further_file::FurtherFile;
use crate::input::instance_file::read_instance;
use crate::input::read_file;
use crate::stop::Stop;
use commands::Reply;
use file_io::Shelf;
use instance_model::Instance;
use row_model::Kind;
use solve_replies::extension_reply;
use std::alloc::Global;
use step_count::{Ledger, Steps};

pub mod further_file;

/// Takes the further rows in one file after those of the matrix in another.
///
/// # Errors
///
/// What stood in the way of the reply.
#[inline(never)]
pub fn extend_file<F: Shelf, L: Ledger>(
    alloc: Global,
    kind: Kind,
    file: &str,
    rows: &str,
    files: &mut F,
    steps: &mut Steps<L>,
) -> Result<Reply, Stop>
    requires { IsExtended kind }
    ensures runs { RunsCommand F.content F.taken F.faults files.old files.new
        (Extend kind file.now rows.now) result }
    ensures steps { CountsReply F.taken files.old files.new (Extend kind file.now rows.now)
        result steps.old steps.new }
{
    let Instance::Plain(_, base) = read_instance(alloc, kind, file, files)? else {
        unreachable!()
    };
    let columns = base.columns();
    let further = read_file(alloc, &FurtherFile { columns }, 2, rows, files)?;
    Ok(extension_reply(alloc, kind, base, &further, steps)?)
}
