// The check of the text of a core.
ghost use Rattle.std.specs.Prelude.{◌≡◌, ◌⊎◌, List, ℕ, IfOk};
ghost use Rattle.file_io.specs.Whole.{IsWhole};
ghost use Rattle.row_model.specs.Rows.{RowList};
ghost use Rattle.instance_model.specs.Instance.{plain, instance_kind, IsInstance};
ghost use Rattle.instance_model.specs.Value.{instance_value};
ghost use Rattle.command_input.specs.Words.{IsExtended};
ghost use Rattle.commands.specs.CoreJudgements.{IsCoreJudgement, IsCoreJudgementReply};

use crate::core_judgement::CoreJudgement;
use crate::line_reply::line_reply;
use crate::{MAX_CORE_BYTES, NoMemory, Reply};
use core_text::parse_core;
use file_io::Whole;
use instance_model::Instance;
use row_model::{Kind, Matrix};
use std::alloc::Global;
use verdict_judge::{CoreChecked, check_core};

/// The reply to the check of a core: one line with what is found, and its status.
///
/// # Errors
///
/// `NoMemory`.
pub fn core_judgement_reply(
    alloc: Global,
    kind: Kind,
    instance: &Instance,
    core: &Whole,
) -> Result<Reply, NoMemory>
    requires within { IsInstance (instance_value instance.now) }
    requires of_kind { instance_kind (instance_value instance.now) ≡ kind }
    requires taken { IsExtended kind }
    ensures reply { IfOk result (λ reply. (bytes : List ℕ) → IsWhole MAX_CORE_BYTES bytes core.now → (m : RowList) × (instance_value instance.now ≡ plain kind m) × IsCoreJudgementReply kind m bytes reply.status reply.text.items) }
    ensures status { IfOk result (λ reply. (reply.status ≡ 0) ⊎ (reply.status ≡ 1)) }
{
    let Instance::Plain(_, m) = instance else {
        unreachable!()
    };
    let judgement = judge(alloc, kind, m, core)?;
    let line = format!(in alloc; "{judgement}\n")?;
    Ok(line_reply(judgement.status(), line))
}

// What is found of the bytes of a core.
fn judge(alloc: Global, kind: Kind, m: &Matrix, core: &Whole) -> Result<CoreJudgement, NoMemory>
    ensures { IfOk result (λ judgement.
        (bytes : List ℕ) → IsWhole MAX_CORE_BYTES bytes core.now
        → IsCoreJudgement kind m.now bytes judgement) }
{
    let Whole::Bytes(bytes) = core else {
        return Ok(CoreJudgement::TooLong);
    };
    let Some(core) = parse_core(alloc, bytes)? else {
        return Ok(CoreJudgement::NoCore);
    };
    match check_core(alloc, m, kind, &core)? {
        CoreChecked::Valid => Ok(CoreJudgement::Valid),
        CoreChecked::Invalid(reason) => Ok(CoreJudgement::Fails(reason)),
    }
}
