// The check of a verdict.
ghost use Rattle.std.specs.Prelude.{◌≡◌, ◌⊎◌, List, ℕ, IfOk};
ghost use Rattle.file_io.specs.Whole.{IsWhole};
ghost use Rattle.instance_model.specs.Instance.{IsInstance};
ghost use Rattle.instance_model.specs.Value.{instance_value};
ghost use Rattle.commands.specs.Judgements.{IsJudgement, IsJudgementReply};

use crate::judgement::Judgement;
use crate::line_reply::line_reply;
use crate::{MAX_VERDICT_BYTES, NoMemory, Reply};
use file_io::Whole;
use std::alloc::Global;
use verdict_judge::{Checked, Instance};
use verdict_text::parse;

/// The reply to the check of a verdict: one line with what is found, and its status.
///
/// # Errors
///
/// `NoMemory`.
pub fn judgement_reply(
    alloc: Global,
    instance: &Instance,
    verdict: &Whole,
) -> Result<Reply, NoMemory>
    requires { IsInstance (instance_value instance.now) }
    ensures reply { IfOk result (λ reply.
        (bytes : List ℕ) → IsWhole MAX_VERDICT_BYTES bytes verdict.now
        → IsJudgementReply (instance_value instance.now) bytes reply.status reply.text.items) }
    ensures status { IfOk result (λ reply. (reply.status ≡ 0) ⊎ (reply.status ≡ 1)) }
{
    let judgement = judge(alloc, instance, verdict)?;
    let line = format!(in alloc; "{judgement}\n")?;
    Ok(line_reply(judgement.status(), line))
}

// What is found of the bytes of a verdict.
fn judge(alloc: Global, instance: &Instance, verdict: &Whole) -> Result<Judgement, NoMemory>
    requires { IsInstance (instance_value instance.now) }
    ensures { IfOk result (λ judgement.
        (bytes : List ℕ) → IsWhole MAX_VERDICT_BYTES bytes verdict.now
        → IsJudgement (instance_value instance.now) bytes judgement) }
{
    let Whole::Bytes(bytes) = verdict else {
        return Ok(Judgement::TooLong);
    };
    let Some(verdict) = parse(alloc, bytes)? else {
        return Ok(Judgement::NoVerdict);
    };
    match verdict_judge::check(alloc, instance, &verdict)? {
        Checked::Valid => Ok(Judgement::Valid),
        Checked::Invalid(reason) => Ok(Judgement::Fails(reason)),
    }
}
