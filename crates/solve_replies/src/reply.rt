// The reply on an instance.
ghost use Rattle.std.specs.Prelude.{◌≡◌, ◌⊎◌, IfOk};
ghost use Rattle.instance_model.specs.Instance.{InstanceValue, IsInstance};
ghost use Rattle.instance_model.specs.Value.{instance_value};
ghost use Rattle.verdict_text.specs.Grammar.{IsVerdict};
ghost use Rattle.verdict_text.specs.Value.{claim_of, verdict_value};
ghost use Rattle.verdict_replies.specs.Verdicts.{IsVerdictOf, IsVerdictReply, status_of};
ghost use Rattle.solve_replies.specs.Steps.{made_status, verdict_status, SolvesWithin};

use crate::NoMemory;
use crate::verdicts::verdict_on;
use instance_model::Instance;
use std::alloc::Global;
use step_count::{Ledger, Steps};
use verdict_replies::{Reply, printed};
use verdict_text::{Part, Verdict};

/// The reply on an instance: the text of the verdict, and its status.
///
/// # Errors
///
/// `NoMemory`.
pub fn verdict_reply<L: Ledger>(
    alloc: Global,
    instance: &Instance,
    steps: &mut Steps<L>,
) -> Result<Reply, NoMemory>
    requires { IsInstance (instance_value instance.now) }
    ensures reply { IfOk result (λ reply.
        IsVerdictReply (instance_value instance.now) reply.status reply.text.items) }
    ensures status { IfOk result (λ reply. (reply.status ≡ 0) ⊎ (reply.status ≡ 1)) }
    ensures steps { SolvesWithin (instance_value instance.now) (made_status (λ reply. reply.status) result)
        steps.old steps.new }
{
    let verdict = verdict_on(alloc, instance, steps)?;
    told(alloc, &verdict)
}

// The text of a verdict, and the status that goes with it.
pub fn told(alloc: Global, verdict: &Verdict) -> Result<Reply, NoMemory>
    requires { IsVerdict (verdict_value verdict.now) }
    ensures reply { IfOk result (λ reply. (i : InstanceValue)
        → IsVerdictOf i (verdict_value verdict.now)
        → IsVerdictReply i reply.status reply.text.items) }
    ensures status { IfOk result (λ reply. (reply.status ≡ 0) ⊎ (reply.status ≡ 1)) }
    ensures claim { IfOk result (λ reply. reply.status ≡ verdict_status verdict.now) }
{
    let text = printed(alloc, verdict)?;
    Ok(Reply {
        status: status(&verdict.part),
        text,
    })
}

// The exit status: 0 for yes, 1 for no.
fn status(part: &Part) -> u8
    ensures { result ≡ status_of (claim_of part.now) }
{
    match part {
        Part::Yes(_) => 0,
        Part::No(_) => 1,
    }
}
