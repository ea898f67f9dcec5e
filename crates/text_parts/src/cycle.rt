// The lines of a cycle, both ways.
ghost use Rattle.std.specs.Prelude.{◌≡◌, ◌++◌, OnOk, OnErr};
ghost use Rattle.plain_text.specs.Pieces.{Extends};
ghost use Rattle.plain_text.specs.Rest.{with_rest};
ghost use Rattle.text_parts.specs.Reading.{counted_at, line_at, why_at, row_reason_at};
ghost use Rattle.text_parts.specs.Seen.{Gives};
ghost use Rattle.text_parts.specs.Text.{counted_cycle, cycle_line, why_text};

use crate::lines::{LineForm, print_counted, read_counted};
use crate::numbers::{after, push, push_word, read_number};
use crate::stop::Stop;
use plain_text::{after_word, push_number};
use row_model::{Line, Lines, NoMemory, Pair, Why};
use std::alloc::Global;

// A line of a cycle, which has no number.
struct CycleLine;

impl LineForm for CycleLine {
    type Item = Line;

    const LEAST: usize = 9;

    ghost LEAST = { 9 };

    ghost line_text = { λ _ line. cycle_line line };

    ghost line_at = { line_at };

    fn print(_: u64, line: Line, text: &mut Vec<u8>) -> Result<(), NoMemory> {
        push_number(text, u64::from(line.pair.a))?;
        push_word(u64::from(line.pair.b), text)?;
        push_why(line.why, text)?;
        Ok(())
    }

    #[tactic(auto, unfolding(crate::specs::Reading::line_at))]
    fn read(_: u32, bytes: &[u8]) -> Result<(Line, &[u8]), Stop> {
        let (a, rest) = read_number(bytes)?;
        let rest = after(rest, b" ")?;
        let (b, rest) = read_number(rest)?;
        let (why, rest) = read_why(rest)?;
        Ok((
            Line {
                pair: Pair { a, b },
                why,
            },
            rest,
        ))
    }

    fn room_law() {}
}

/// Appends the line `cycle L` and the L lines of a cycle.
///
/// # Errors
///
/// `NoMemory`. What `text` held is still its front.
pub fn print_cycle(lines: &[Line], text: &mut Vec<u8>) -> Result<(), NoMemory>
    ensures ok { OnOk result (text.new.items ≡ text.old.items ++ counted_cycle lines.now) }
    ensures err { OnErr result (Extends text.old.items text.new.items) }
{
    print_counted::<CycleLine>(b"cycle ", lines, text)
}

fn push_why(why: Why, text: &mut Vec<u8>) -> Result<(), NoMemory>
    ensures ok { OnOk result (text.new.items ≡ text.old.items ++ why_text why) }
    ensures err { OnErr result (Extends text.old.items text.new.items) }
{
    match why {
        Why::Flip => {
            push(text, b" flip\n")?;
            Ok(())
        }
        Why::Row(k) => {
            push(text, b" row ")?;
            push_number(text, u64::from(k))?;
            push(text, b"\n")?;
            Ok(())
        }
    }
}

/// A word, and behind it the number of lines and the lines of a cycle.
///
/// # Errors
///
/// `Stop::Outside` where the bytes do not begin so; `Stop::NoMemory`.
pub fn read_cycle<'a>(
    alloc: Global,
    word: &[u8],
    bytes: &'a [u8],
) -> Result<(Lines, &'a [u8]), Stop>
    ensures { Gives with_rest result (counted_at word.now line_at bytes.now) }
{
    read_counted::<CycleLine>(alloc, word, bytes)
}

#[tactic(auto, unfolding(crate::specs::Reading::why_at))]
fn read_why(bytes: &[u8]) -> Result<(Why, &[u8]), Stop>
    ensures { Gives with_rest result (why_at bytes.now) }
{
    match after_word(bytes, b" flip\n") {
        Some(rest) => Ok((Why::Flip, rest)),
        None => read_row(bytes),
    }
}

#[tactic(auto, unfolding(crate::specs::Reading::row_reason_at))]
fn read_row(bytes: &[u8]) -> Result<(Why, &[u8]), Stop>
    ensures { Gives with_rest result (row_reason_at bytes.now) }
{
    let row = after(bytes, b" row ")?;
    let (k, rest) = read_number(row)?;
    let rest = after(rest, b"\n")?;
    Ok((Why::Row(k), rest))
}
