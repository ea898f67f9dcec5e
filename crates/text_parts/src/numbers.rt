// Words and numbers, both ways. Each reader gives what it read and the bytes after it.
ghost use Rattle.std.specs.Prelude.{◌≡◌, ◌≤◌, ◌<◌, ◌*◌, ◌++◌, length, flat_map, IfOk, IfErr, OnOk, OnErr};
ghost use Rattle.plain_text.specs.Numbers.{number_at};
ghost use Rattle.plain_text.specs.Pieces.{Extends};
ghost use Rattle.plain_text.specs.Rest.{with_rest, rest_of};
ghost use Rattle.plain_text.specs.Words.{word_at};
ghost use Rattle.text_parts.specs.Grammar.{max_number, IsColumnCount};
ghost use Rattle.text_parts.specs.Reading.{column_count_at, numbers_at};
ghost use Rattle.text_parts.specs.Seen.{Gives, numbers_seen};
ghost use Rattle.text_parts.specs.Text.{number_word};

use crate::stop::Stop;
use plain_text::{after_word, number, push_number};
use row_model::{MAX_COLUMNS, NoMemory};
use std::alloc::Global;

/// Puts bytes at the end of a text.
///
/// # Errors
///
/// `NoMemory` where there is no memory for them; the text is as before then.
pub fn push(text: &mut Vec<u8>, bytes: &[u8]) -> Result<(), NoMemory>
    ensures ok { OnOk result (text.new.items ≡ text.old.items ++ bytes.now) }
    ensures err { OnErr result (text.new.items ≡ text.old.items) }
{
    text.extend_from_slice(bytes)
}

/// Puts a space and a number at the end of a text.
///
/// # Errors
///
/// `NoMemory`. A part of them may have been put there.
pub fn push_word(n: u64, text: &mut Vec<u8>) -> Result<(), NoMemory>
    ensures ok { OnOk result (text.new.items ≡ text.old.items ++ number_word n) }
    ensures err { OnErr result (Extends text.old.items text.new.items) }
{
    push(text, b" ")?;
    push_number(text, n)?;
    Ok(())
}

/// Puts each number after a space at the end of a text.
///
/// # Errors
///
/// `NoMemory`. A part of them may have been put there.
pub fn push_words(numbers: &[u32], text: &mut Vec<u8>) -> Result<(), NoMemory>
    ensures ok { OnOk result (text.new.items ≡ text.old.items ++ flat_map number_word numbers.now) }
    ensures err { OnErr result (Extends text.old.items text.new.items) }
{
    for n in numbers {
        push_word(u64::from(*n), text)?;
    }
    Ok(())
}

/// The bytes after a word at their front.
///
/// # Errors
///
/// [`Stop::Outside`] where they begin otherwise.
pub fn after<'a>(bytes: &'a [u8], word: &[u8]) -> Result<&'a [u8], Stop>
    ensures { Gives rest_of result (word_at word.now bytes.now) }
{
    match after_word(bytes, word) {
        None => Err(Stop::Outside),
        Some(rest) => Ok(rest),
    }
}

/// Reads a count, a column, a row or a position at the front of the bytes.
///
/// # Errors
///
/// [`Stop::Outside`] where no number below 2^32 without leading zeros stands there.
pub fn read_number(bytes: &[u8]) -> Result<(u32, &[u8]), Stop>
    ensures { Gives with_rest result (number_at max_number bytes.now) }
{
    match number(bytes, u64::from(u32::MAX)) {
        None => Err(Stop::Outside),
        Some((n, rest)) => Ok((n as u32, rest)),
    }
}

/// Reads a number of columns, from 1 to [`MAX_COLUMNS`], after a space at the front of the bytes.
///
/// # Errors
///
/// [`Stop::Outside`] where none stands there.
#[tactic(auto, unfolding(crate::specs::Reading::column_count_at))]
pub fn read_column_count(bytes: &[u8]) -> Result<(u32, &[u8]), Stop>
    ensures value { Gives with_rest result (column_count_at bytes.now) }
    ensures columns { IfOk result (λ x. IsColumnCount x.0) }
{
    let space = after(bytes, b" ")?;
    match number(space, u64::from(MAX_COLUMNS)) {
        None => Err(Stop::Outside),
        Some((c, rest)) => {
            if c == 0 {
                return Err(Stop::Outside);
            }
            Ok((c as u32, rest))
        }
    }
}

/// Reads the numbers at the front of the bytes, each after a space.
///
/// # Errors
///
/// [`Stop::Outside`] where a space is followed by no number, and where memory is refused the stop that says so.
pub fn read_numbers(alloc: Global, bytes: &[u8]) -> Result<(Vec<u32>, &[u8]), Stop>
    ensures { Gives numbers_seen result (numbers_at (length bytes.now) bytes.now) }
{
    let mut numbers = Vec::new(alloc);
    let mut rest = bytes;
    'numbers: while let Some(space) = after_word(rest, b" ") {
        let (n, after) = read_number(space)?;
        numbers.push(n)?;
        rest = after;
    }
    Ok((numbers, rest))
}

/// The count, where so many items of `least` bytes or more can stand in the bytes.
///
/// # Errors
///
/// [`Stop::Outside`] where the bytes are too few for them.
pub fn room(count: u32, least: usize, bytes: &[u8]) -> Result<usize, Stop>
    requires { (1 ≤ least) × (least ≤ 16) }
    ensures room { IfOk result (λ n. (n ≡ count) × (n * least ≤ length bytes.now)) }
    ensures none { IfErr result (λ e. (e ≡ Stop.Outside) × (length bytes.now < count * least)) }
{
    let count = count as usize;
    if count > bytes.len() / least {
        return Err(Stop::Outside);
    }
    Ok(count)
}
