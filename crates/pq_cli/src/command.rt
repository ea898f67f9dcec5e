// The commands: from what the words ask for to a reply.
ghost use Rattle.command_input.specs.Words.{IsInGrammar};
ghost use Rattle.command_input.specs.Task.{command_seen};
ghost use Rattle.pq_cli.specs.Runs.{RunsCommand};
ghost use Rattle.pq_cli.specs.Steps.{CountsReply};

use crate::extend::extend_file;
use crate::making::{BlameReply, ListReply, UnitReply, VerdictReply};
use crate::meet::meet_files;
use crate::over::{Both, over_both, over_instance};
use crate::stop::Stop;
use commands::{
    MAX_CORE_BYTES, MAX_VERDICT_BYTES, Reply, Task, core_judgement_reply, finding_reply,
    judgement_reply,
};
use file_io::Shelf;
use row_model::Kind;
use solve_replies::summary_reply;
use std::alloc::Global;
use step_count::{Ledger, Steps};

/// Does what the words ask for, up to the reply.
///
/// # Errors
///
/// What stood in the way of the reply.
pub fn perform<F: Shelf, L: Ledger>(
    alloc: Global,
    task: &Task<'_>,
    files: &mut F,
    steps: &mut Steps<L>,
) -> Result<Reply, Stop>
    requires { IsInGrammar (command_seen task.now) }
    ensures runs { RunsCommand F.content F.taken F.faults files.old files.new
        (command_seen task.now) result }
    ensures steps { CountsReply F.taken files.old files.new (command_seen task.now) result steps.old
        steps.new }
{
    match *task {
        Task::Solve { kind, file } => {
            over_instance(alloc, kind, file, files, &VerdictReply, steps)
        }
        Task::Check {
            kind,
            file,
            verdict,
        } => {
            let reply = |both: Both| judgement_reply(alloc, &both.instance, &both.text);
            over_both(alloc, kind, file, MAX_VERDICT_BYTES, verdict, files, reply)
        }
        Task::Extend { kind, file, rows } => extend_file(alloc, kind, file, rows, files, steps),
        Task::Core { kind, file } => {
            over_instance(alloc, kind, file, files, &BlameReply { kind }, steps)
        }
        Task::CheckCore { kind, file, core } => {
            let reply = |both: Both| core_judgement_reply(alloc, kind, &both.instance, &both.text);
            over_both(alloc, kind, file, MAX_CORE_BYTES, core, files, reply)
        }
        Task::Gen {
            seed,
            columns,
            rows,
        } => Ok(summary_reply(alloc, seed, columns, rows, steps)?),
        Task::Meet {
            columns,
            first,
            second,
        } => meet_files(alloc, columns, first, second, files, steps),
        Task::ListOrders { kind, file, count } => {
            over_instance(alloc, kind, file, files, &ListReply { kind, count }, steps)
        }
        Task::UnitModel { file } => {
            over_instance(alloc, Kind::Proper, file, files, &UnitReply, steps)
        }
        Task::CheckUnit { file, unit } => {
            let kind = Kind::Proper;
            let reply = |both: Both| finding_reply(alloc, &both.instance, &both.text);
            over_both(alloc, kind, file, MAX_VERDICT_BYTES, unit, files, reply)
        }
    }
}
