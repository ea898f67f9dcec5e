// What a reply promises.
ghost use Rattle.pq_cli.specs.Promised.{PromiseLaw};
ghost use Rattle.pq_cli.specs.Answer.{AnswerLaw};

use crate::replies::check::{check_law, solved_law};
use crate::replies::core_rows::{core_judgement_law, core_law};
use crate::replies::extend::extend_law;
use crate::replies::list::list_law;
use crate::replies::solve::reply_law;
use crate::replies::unit::unit_reply_law;
use crate::replies::unit_check::unit_check_law;

/// What a reply promises, whatever the command. A `solve` answers yes exactly where a textbook order exists, with trees
/// whose frontiers are exactly those orders, of a circular instance up to rotation; and otherwise no, with a simple odd
/// cycle of the incompatibility graph of the derived rows, up to the first that leaves no valid order with those before
/// it, which is a reason of the cycle. A `check` accepts whatever `solve` wrote, and nothing untrue. An `extend` shows
/// what became of each further row, a `core` names rows that are a core of a matrix without a valid order, and a `list`
/// the first valid orders; where there is nothing to extend, to blame or to list the reply is a no or a yes of `solve`.
/// A `check-core` accepts whatever `core` wrote with status 0, and nothing that names no core. A `unit` gives a unit
/// model exactly where one exists, and a `check-unit` accepts it, and nothing else than a unit model. A `meet` tells
/// what two trees share, and a `gen` what was drawn.
pub fn promise_law()
    ensures { PromiseLaw }
{
    reply_law();
    check_law();
    solved_law();
    extend_law();
    core_law();
    core_judgement_law();
    list_law();
    unit_reply_law();
    unit_check_law();
}

/// What the status of a reply answers, whatever the command: whether there is an order, a unit model or a shared order, or
/// that what is judged is true. It is less than [`promise_law`] says, and less has to be read for it.
pub fn answer_law()
    ensures { AnswerLaw }
{
    promise_law();
}
