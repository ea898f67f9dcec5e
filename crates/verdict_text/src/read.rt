// A verdict, read from the front of bytes. Each reader gives what it read and the bytes after it.
ghost use Rattle.verdict_text.specs.Value.{column_counts, verdict_value};
ghost use Rattle.plain_text.specs.Rest.{rest_of};
ghost use Rattle.verdict_text.specs.Grammar.{side_count, AreColumnCounts};
ghost use Rattle.verdict_text.specs.Reading.{index_at, claim_at, verdict_of};
ghost use Rattle.text_parts.specs.Seen.{Gives};
ghost use Rattle.verdict_text.specs.Seen.{part_seen};

mod head;
mod no;
mod yes;

use crate::verdict::{Columns, Part, Verdict};
use plain_text::after_word;
use row_model::Kind;
use std::alloc::Global;
use text_parts::{Stop, after, read_number};

/// The verdict that all of the bytes are the text of.
#[tactic(auto, unfolding(crate::specs::Reading::verdict_of))]
pub fn read_verdict(alloc: Global, bytes: &[u8]) -> Result<Verdict, Stop>
    ensures { Gives verdict_value result (verdict_of bytes.now) }
{
    let (version, kind, columns, rest) = head::read_head(bytes)?;
    let (part, rest) = read_part(alloc, kind, columns, rest)?;
    let rest = after(rest, b"end\n")?;
    if !rest.is_empty() {
        return Err(Stop::Outside);
    }
    Ok(Verdict {
        version,
        kind,
        columns,
        part,
    })
}

#[tactic(auto, unfolding(crate::specs::Reading::claim_at))]
fn read_part(
    alloc: Global,
    kind: Kind,
    columns: Columns,
    bytes: &[u8],
) -> Result<(Part, &[u8]), Stop>
    requires { AreColumnCounts (column_counts columns) }
    ensures { Gives part_seen result (claim_at kind (column_counts columns) bytes.now) }
{
    match after_word(bytes, b"answer yes\n") {
        Some(rest) => {
            let (part, rest) = yes::read_yes(alloc, kind, columns, rest)?;
            Ok((Part::Yes(part), rest))
        }
        None => {
            let rest = after(bytes, b"answer no\n")?;
            let (part, rest) = no::read_no(alloc, head::side_count(kind), rest)?;
            Ok((Part::No(part), rest))
        }
    }
}

// The bytes after a word and a given number.
#[tactic(auto, unfolding(crate::specs::Reading::index_at))]
pub(crate) fn after_index<'a>(bytes: &'a [u8], word: &[u8], i: u32) -> Result<&'a [u8], Stop>
    ensures { Gives rest_of result (index_at word.now i bytes.now) }
{
    let first = after(bytes, word)?;
    let (n, rest) = read_number(first)?;
    if n == i { Ok(rest) } else { Err(Stop::Outside) }
}
