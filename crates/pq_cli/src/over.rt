// Commands over the file of an instance.
ghost use Rattle.std.specs.Prelude.{◌≤◌, ◌^◌, ℕ, Result, [], ◌∷◌};
ghost use Rattle.std.specs.declared.alloc.AllocError.{AllocError};
ghost use Rattle.verdict_replies.specs.declared.reply.Reply.{Reply};
ghost use Rattle.instance_model.specs.declared.instance.Instance.{Instance};
ghost use Rattle.command_input.specs.Words.{Command};
ghost use Rattle.command_input.specs.Instances.{IsInstanceOf};
ghost use Rattle.pq_cli.specs.declared.over.Both.{Both};
ghost use Rattle.pq_cli.specs.Over.{IsOverInstance, RepliesToInstance, RepliesToBoth};
ghost use Rattle.pq_cli.specs.Runs.{RunsCommand};
ghost use Rattle.pq_cli.specs.Steps.{CountsOnInstance, CountsReply};

use crate::NoMemory;
use crate::input::instance_file::read_instance;
use crate::input::read_text;
use crate::stop::Stop;
use commands::Reply;
use file_io::{Shelf, Whole};
use instance_model::Instance;
use row_model::Kind;
use std::alloc::Global;
use step_count::{Ledger, Steps};

/// A reply, or that memory is refused.
pub type Made = Result<Reply, NoMemory>;

/// A call that makes a reply of an instance.
pub trait InstanceReply {
    /// Which instances it takes.
    ghost takes: { Self → Instance → Type 0 };

    /// What it makes of one, in steps that go from one number to another.
    ghost makes: { Self → Instance → ℕ → Result Reply AllocError → ℕ → Type 0 };

    /// Makes the reply.
    ///
    /// # Errors
    ///
    /// Memory is refused.
    fn reply<L: Ledger>(&self, alloc: Global, instance: &Instance, steps: &mut Steps<L>) -> Made
        requires { takes self.now instance.now }
        ensures { makes self.now instance.now steps.old result steps.new };
}

/// The reply to a command over the file of an instance of a kind: what `reply` makes of the instance.
///
/// # Errors
///
/// What stood in the way of the reply.
#[inline(never)]
pub fn over_instance<F: Shelf, R: InstanceReply, L: Ledger>(
    alloc: Global,
    kind: Kind,
    file: &str,
    files: &mut F,
    reply: &R,
    steps: &mut Steps<L>,
) -> Result<Reply, Stop>
    requires { (i : Instance) → IsInstanceOf kind i → R.takes reply.now i }
    ensures runs { (command : Command) → IsOverInstance command kind (file.now ∷ [])
        → RepliesToInstance command kind (R.makes reply.now)
        → RunsCommand F.content F.taken F.faults files.old files.new command result }
    ensures steps { (command : Command) → IsOverInstance command kind (file.now ∷ [])
        → RepliesToInstance command kind (R.makes reply.now)
        → CountsOnInstance command kind (R.makes reply.now)
        → CountsReply F.taken files.old files.new command result steps.old steps.new }
{
    let instance = read_instance(alloc, kind, file, files)?;
    let made = reply.reply(alloc, &instance, steps);
    // Here, in one call: at each way out its kinds would be taken apart anew, which makes the proof slow.
    drop(instance);
    Ok(made?)
}

/// What was read of two files.
pub struct Both {
    /// The instance of the first.
    pub instance: Instance,
    /// The bytes of the second.
    pub text: Whole,
}

// By hand, so that a place where both are dropped proves one call and does not take their parts apart.
impl Drop for Both {
    fn drop(self) {
        let Both {
            instance: _instance,
            text: _text,
        } = self;
    }
}

/// The reply to a command over the file of an instance of a kind and that of a text of at most so many bytes: what
/// `reply` makes of both.
///
/// # Errors
///
/// What stood in the way of the reply.
#[inline(never)]
pub fn over_both<F: Shelf, R: FnOnce(Both) -> Made>(
    alloc: Global,
    kind: Kind,
    file: &str,
    limit: u64,
    text: &str,
    files: &mut F,
    reply: R,
) -> Result<Reply, Stop>
    requires limit { limit ≤ 2 ^ 32 }
    requires reply { (both : Both) → IsInstanceOf kind both.instance → R.pre reply both }
    ensures { (command : Command) → IsOverInstance command kind (file.now ∷ text.now ∷ [])
        → RepliesToBoth command kind limit (R.post reply)
        → RunsCommand F.content F.taken F.faults files.old files.new command result }
{
    let instance = read_instance(alloc, kind, file, files)?;
    let text = read_text(alloc, limit, text, files)?;
    Ok(reply(Both { instance, text })?)
}
