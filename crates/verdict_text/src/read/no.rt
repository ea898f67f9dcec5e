// A no: its side and its cycle.
ghost use Rattle.verdict_text.specs.Reading.{no_at};
ghost use Rattle.text_parts.specs.Seen.{Gives};
ghost use Rattle.verdict_text.specs.Seen.{no_seen};

use crate::verdict::NoPart;
use plain_text::number;
use std::alloc::Global;
use text_parts::{Stop, after, read_cycle};

#[tactic(auto, unfolding(crate::specs::Reading::no_at))]
pub fn read_no(alloc: Global, sides: u8, bytes: &[u8]) -> Result<(NoPart, &[u8]), Stop>
    ensures { Gives no_seen result (no_at sides bytes.now) }
{
    let rest = after(bytes, b"side ")?;
    let (side, rest) = match number(rest, u64::from(sides)) {
        None => return Err(Stop::Outside),
        Some(x) => x,
    };
    let (lines, rest) = read_cycle(alloc, b"\ncycle ", rest)?;
    if side == 0 {
        return Err(Stop::Outside);
    }
    Ok((
        NoPart {
            side: side as u8,
            lines,
        },
        rest,
    ))
}
