// The reply on a matrix and further rows.
ghost use Rattle.std.specs.Prelude.{◌≡◌, ◌⊎◌, ◌≤◌, length, IfOk};
ghost use Rattle.row_model.specs.declared.TheConstants.{MAX_ROWS};
ghost use Rattle.instance_model.specs.Instance.{plain, IsInstance};
ghost use Rattle.solve_replies.specs.Sessions.{IsExtensionReply};
ghost use Rattle.solve_replies.specs.Steps.{made_status};
ghost use Rattle.solve_replies.specs.Charges.{ExtendsWithin};

use crate::NoMemory;
use crate::session::session_reply;
use c1p_solve::{Session, Started};
use row_model::{Kind, Matrix};
use std::alloc::Global;
use step_count::{Ledger, Steps};
use verdict_replies::{Reply, no_reply};

/// The reply on a matrix and further rows over its columns: what became of each of them, and the tree of the rows that
/// were accepted. Where the matrix itself has no valid order, it is the reply of `solve`.
///
/// # Errors
///
/// `NoMemory`.
pub fn extension_reply<L: Ledger>(
    alloc: Global,
    kind: Kind,
    base: Matrix,
    further: &Matrix,
    steps: &mut Steps<L>,
) -> Result<Reply, NoMemory>
    requires base { IsInstance (plain kind base) }
    requires columns { further.now.columns ≡ base.columns }
    requires few { length further.now.rows ≤ MAX_ROWS }
    ensures reply { IfOk result (λ reply.
        IsExtensionReply kind base further.now.rows reply.status reply.text.items) }
    ensures status { IfOk result (λ reply. (reply.status ≡ 0) ⊎ (reply.status ≡ 1)) }
    ensures steps { ExtendsWithin base further.now.rows (made_status (λ reply. reply.status) result)
        steps.old steps.new }
{
    let columns = base.columns();
    match Session::start(alloc, base, steps)? {
        Started::Ok(session) => session_reply(alloc, kind, session, further, steps),
        Started::No(cycle) => no_reply(alloc, kind, columns, cycle),
    }
}
