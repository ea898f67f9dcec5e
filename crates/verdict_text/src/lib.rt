//! Verdicts and their texts.
//!
//! A verdict is of version 1 or of version 2. A yes of version 1 has trees of which each frontier is an order of the
//! side; those of a yes of version 2 have each order of the side as a frontier besides. The number in the first line is
//! all in which their texts differ.
//!
//! A text has these lines, each with a line feed at its end and one space between entries, and nothing after the last
//! of them. Capital letters stand for plain numbers, which have no leading zeros; V is 1 or 2, K is the word of a kind,
//! and T the text of a tree. C and D are from 1 to 2,048 (`MAX_COLUMNS` of `row_model`), S is 1, and for `doubly` 1 or
//! 2, the ends of intervals are at most 2^64 - 1, and every other number is at most 2^32 - 1.
//!
//! ```text
//! pq-verdict V
//! kind K
//! columns C                 for `doubly`: columns C D
//! answer yes                or: answer no
//! tree T                        side S
//! order N1 N2 ..                cycle L
//! ..                            A B flip, or: A B row N; L lines
//! end                           end
//! ```
//!
//! A yes has the tree and the order of each side. For `proper` C lines `interval I L R` follow; for `clones` a line
//! `places M` with M lines `place I F L` or `place I none`, and a line `contigs Q` with Q lines `contig F L`.
#![tactic(auto)]

ghost use Rattle.std.specs.Prelude.{◌≡◌, ◌≢◌, IfOk, IfSome, IfNone};
ghost use Rattle.verdict_text.specs.Verdict.{VerdictValue};
ghost use Rattle.verdict_text.specs.Grammar.{IsVerdict};
ghost use Rattle.verdict_text.specs.Text.{verdict_text};
ghost use Rattle.verdict_text.specs.Value.{verdict_value};

mod lines;
mod read;
mod verdict;
mod write;

use crate::read::read_verdict;
pub use row_model::NoMemory;
use std::alloc::Global;
use text_parts::Stop;
pub use text_parts::print_cycle;
pub use verdict::{Columns, NoPart, Part, Verdict, Version, YesPart};
pub use write::{print, print_side, print_subject};

/// The verdict of which the bytes are the text; none where the bytes are outside the grammar.
///
/// No list takes more room than the bytes that are left can fill.
///
/// # Errors
///
/// `NoMemory`.
pub fn parse(alloc: Global, bytes: &[u8]) -> Result<Option<Verdict>, NoMemory>
    ensures within { IfOk result (λ o. IfSome o (λ v. IsVerdict (verdict_value v))) }
    ensures found { IfOk result (λ o. IfSome o (λ v. bytes.now ≡ verdict_text (verdict_value v))) }
    ensures none { IfOk result (λ o. IfNone o ((v : VerdictValue) → IsVerdict v → bytes.now ≢ verdict_text v)) }
{
    match read_verdict(alloc, bytes) {
        Ok(verdict) => Ok(Some(verdict)),
        Err(Stop::Outside) => Ok(None),
        Err(Stop::NoMemory) => Err(NoMemory),
    }
}

/// No two verdicts have one text.
pub fn one_verdict()
    ensures { (v w : VerdictValue) → IsVerdict v → IsVerdict w → verdict_text v ≡ verdict_text w → v ≡ w }
{}
