//! A check of what `solve` wrote, over files in memory: what one run of the top call writes, another believes.
#![tactic(auto)]

ghost use Rattle.std.specs.Prelude.{◌≡◌, ℕ, IfOk, IfSome, IfNone, OnErr};
ghost use Rattle.command_input.specs.Words.{kind_of};
ghost use Rattle.check_after_solve.specs.Agreed.{IsSolvedAs, IsFoundAs, IsEndOf};
ghost use Rattle.check_after_solve.specs.declared.Ended.TheVariants.{Unsolved};

use pq_cli::{run, solved_law, told_law};
use pq_io::{MemSink, NeverShelf, NeverSink, NoMemory, Sink};
use std::alloc::Global;

/// How `solve` ended, and the check of what it wrote.
#[derive(Clone, Copy, Debug, PartialEq, Eq)]
pub enum Ended {
    /// `solve` ended with this status, from 2 on, so there is nothing to check.
    Unsolved(u8),
    /// `solve` ended with the first status, 0 or 1, and the check with the second.
    Checked(u8, u8),
}

/// Runs `solve KIND instance`, and then `check KIND instance verdict` over the same instance and what the first wrote.
///
/// No read fails. The first run may write `room` bytes, and the second writes to `out`. With status 0 or 1 the first
/// wrote a reply whole. Then the second ends with 0 and wrote `valid`. Or it ends with 5: then `out` counts a fault, and
/// has some first bytes of that. Or it ends with 6 where memory is refused, and `out` is as it was. Else the first ended
/// with 3 on an instance that is refused, or with 5 or 6, of which the contract names no cause; and with 2 where `kind`
/// is no word of a kind. Then there is no second run, and `out` is as it was.
///
/// # Errors
///
/// `NoMemory` where the words, the files or the room lack memory. `out` is as it was then.
pub fn solve_then_check<P: Sink>(
    alloc: Global,
    kind: &str,
    instance: &[u8],
    room: usize,
    out: &mut P,
) -> Result<Ended, NoMemory>
    ensures ended { IfOk result (λ ended. IfSome (kind_of kind.now) (λ k.
        IsEndOf k instance.now (P.written out.old) (P.written out.new) (P.faults out.old)
        (P.faults out.new) ended)) }
    ensures no_kind { IfOk result (λ ended. IfNone (kind_of kind.now) (ended ≡ Unsolved 2)) }
    ensures unsolved { IfOk result (λ ended. (status : ℕ) → ended ≡ Unsolved status → out.new ≡ out.old) }
    ensures err { OnErr result (out.new ≡ out.old) }
{
    let (status, written) = solve(alloc, kind, instance, room)?;
    if status > 1 {
        return Ok(Ended::Unsolved(status));
    }
    let found = check(alloc, kind, instance, written.bytes(), out)?;
    Ok(Ended::Checked(status, found))
}

// The run of `solve`: its status, and the sink that it wrote to.
fn solve(alloc: Global, kind: &str, instance: &[u8], room: usize) -> Result<(u8, MemSink), NoMemory>
    ensures solved { IfOk result (λ ran. IfSome (kind_of kind.now) (λ k.
        IsSolvedAs k instance.now ran.0 ran.1.bytes)) }
    ensures no_kind { IfOk result (λ ran. IfNone (kind_of kind.now) (ran.0 ≡ 2)) }
{
    told_law();
    let words = vec![in alloc;
        String::from_str(alloc, "solve")?,
        String::from_str(alloc, kind)?,
        String::from_str(alloc, "instance")?,
    ]?;
    let mut files = NeverShelf::new(alloc);
    files.add("instance", instance)?;
    let mut out = MemSink::new(alloc);
    out.reserve(room)?;
    let status = run(alloc, &words, &mut files, &mut out, &mut NeverSink::new());
    Ok((status, out))
}

// The run of `check` over an instance and a verdict: its status. Without memory for the files nothing is written.
fn check<P: Sink>(
    alloc: Global,
    kind: &str,
    instance: &[u8],
    verdict: &[u8],
    out: &mut P,
) -> Result<u8, NoMemory>
    ensures found { IfOk result (λ found. IfSome (kind_of kind.now) (λ k.
        IsFoundAs k instance.now verdict.now (P.written out.old) (P.written out.new)
        (P.faults out.old) (P.faults out.new) found)) }
    ensures err { OnErr result (out.new ≡ out.old) }
{
    solved_law();
    told_law();
    let words = vec![in alloc;
        String::from_str(alloc, "check")?,
        String::from_str(alloc, kind)?,
        String::from_str(alloc, "instance")?,
        String::from_str(alloc, "verdict")?,
    ]?;
    let mut files = NeverShelf::new(alloc);
    files.add("instance", instance)?;
    files.add("verdict", verdict)?;
    Ok(run(alloc, &words, &mut files, out, &mut NeverSink::new()))
}
