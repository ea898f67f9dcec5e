// Lines that stand one after another, with the numbers from 1 on, both ways.
ghost use Rattle.std.specs.Prelude.{◌≡◌, ◌<◌, ◌≤◌, ◌*◌, ℕ, List, ◌∷◌, ◌++◌, length, Option, None, OnOk, OnErr};
ghost use Rattle.std.specs.Fmt.{decimal};
ghost use Rattle.plain_text.specs.Pieces.{Extends};
ghost use Rattle.plain_text.specs.Rest.{with_rest};
ghost use Rattle.text_parts.specs.Grammar.{max_number};
ghost use Rattle.text_parts.specs.Numbered.{numbered, numbered_at};
ghost use Rattle.text_parts.specs.Reading.{counted_at};
ghost use Rattle.text_parts.specs.Seen.{Gives};

use crate::numbers::{after, push, read_number, room};
use crate::stop::Stop;
use plain_text::push_number;
use row_model::{ListOf, NoMemory};
use std::alloc::Global;

/// What each of the lines that stand one after another says, and how it is printed and read.
pub trait LineForm {
    /// What a line tells.
    type Item: Copy;

    /// The fewest bytes of a line.
    const LEAST: usize;

    /// The same, for clauses.
    ghost LEAST: { ℕ };

    /// The line of a number that tells this.
    ghost line_text: { ℕ → Self.Item → List ℕ };

    /// What the line of a number tells that stands at the front of bytes, and the bytes after it.
    ghost line_at: { ℕ → List ℕ → Option (Self.Item × List ℕ) };

    /// Appends the line of a number.
    ///
    /// # Errors
    ///
    /// `NoMemory`. What `text` held is still its front.
    fn print(number: u64, item: Self::Item, text: &mut Vec<u8>) -> Result<(), NoMemory>
        ensures ok { OnOk result (text.new.items ≡ text.old.items ++ line_text number item) }
        ensures err { OnErr result (Extends text.old.items text.new.items) };

    /// Reads the line of a number from the front of bytes.
    ///
    /// # Errors
    ///
    /// `Stop::Outside` where the bytes do not begin so.
    fn read(number: u32, bytes: &[u8]) -> Result<(Self::Item, &[u8]), Stop>
        ensures { Gives with_rest result (line_at number bytes.now) };

    /// So few bytes have no room for so many lines.
    fn room_law()
        ensures { (n : ℕ) (bytes : List ℕ) → n ≤ max_number → length bytes < n * LEAST → numbered_at line_at 1 n bytes ≡ None };
}

/// Appends a word, the number of items, and on the next lines the line of each item.
///
/// # Errors
///
/// `NoMemory`. What `text` held is still its front.
pub fn print_counted<F: LineForm>(
    word: &[u8],
    items: &[F::Item],
    text: &mut Vec<u8>,
) -> Result<(), NoMemory>
    ensures ok { OnOk result (text.new.items ≡ text.old.items ++ (word.now ++ (decimal (length items.now) ++ (10 ∷ numbered F.line_text 1 items.now)))) }
    ensures err { OnErr result (Extends text.old.items text.new.items) }
{
    push(text, word)?;
    push_number(text, items.len() as u64)?;
    push(text, b"\n")?;
    print_lines::<F>(items, text)?;
    Ok(())
}

/// Appends the line of each item.
///
/// # Errors
///
/// `NoMemory`. What `text` held is still its front.
pub fn print_lines<F: LineForm>(items: &[F::Item], text: &mut Vec<u8>) -> Result<(), NoMemory>
    ensures ok { OnOk result (text.new.items ≡ text.old.items ++ numbered F.line_text 1 items.now) }
    ensures err { OnErr result (Extends text.old.items text.new.items) }
{
    for (i, item) in items.iter().enumerate() {
        F::print(i as u64 + 1, *item, text)?;
    }
    Ok(())
}

/// A word, and behind it the number of lines and the lines.
///
/// # Errors
///
/// `Stop::Outside` where the bytes do not begin so; `Stop::NoMemory`.
#[tactic(auto, unfolding(crate::specs::Reading::counted_at))]
pub fn read_counted<'a, F: LineForm>(
    alloc: Global,
    word: &[u8],
    bytes: &'a [u8],
) -> Result<(ListOf<F::Item>, &'a [u8]), Stop>
    requires { (1 ≤ F.LEAST) × (F.LEAST ≤ 16) }
    ensures { Gives with_rest result (counted_at word.now F.line_at bytes.now) }
{
    let rest = after(bytes, word)?;
    let (count, rest) = read_number(rest)?;
    let rest = after(rest, b"\n")?;
    read_lines::<F>(alloc, count, rest)
}

/// The lines of the numbers 1 to `count`.
///
/// # Errors
///
/// `Stop::Outside` where the bytes do not begin so; `Stop::NoMemory`.
pub fn read_lines<F: LineForm>(
    alloc: Global,
    count: u32,
    bytes: &[u8],
) -> Result<(ListOf<F::Item>, &[u8]), Stop>
    requires { (1 ≤ F.LEAST) × (F.LEAST ≤ 16) }
    ensures { Gives with_rest result (numbered_at F.line_at 1 count bytes.now) }
{
    F::room_law();
    let room = room(count, F::LEAST, bytes)?;
    let mut lines = ListOf::with_capacity(alloc, room)?;
    let mut rest = bytes;
    'lines: for i in 0..count {
        let (line, after) = F::read(i + 1, rest)?;
        lines.push(line)?;
        rest = after;
    }
    Ok((lines, rest))
}
