// A unit model, read from bytes.
ghost use Rattle.std.specs.Prelude.{◌≡◌, ◌≢◌, ◌≤◌, length, option_and_then, option_map, IfOk, IfSome, IfNone};
ghost use Rattle.plain_text.specs.Numbers.{number_at};
ghost use Rattle.plain_text.specs.Rest.{with_rest};
ghost use Rattle.plain_text.specs.Words.{word_at};
ghost use Rattle.unit_model.specs.Text.{UnitValue, IsUnit, unit_text};
ghost use Rattle.unit_model.specs.Reading.{left_at, lefts_at, head_at, unit_of, head_seen, lefts_seen};

use crate::NoMemory;
use crate::text::UnitText;
use plain_text::{after_word, number};
use row_model::MAX_COLUMNS;
use std::alloc::Global;

/// The unit model of which the bytes are the text; none where the bytes are outside the grammar.
///
/// # Errors
///
/// `NoMemory`.
pub fn parse_unit(alloc: Global, bytes: &[u8]) -> Result<Option<UnitText>, NoMemory>
    ensures within { IfOk result (λ o. IfSome o IsUnit) }
    ensures found { IfOk result (λ o. IfSome o (λ t. bytes.now ≡ unit_text t)) }
    ensures none { IfOk result (λ o. IfNone o ((t : UnitValue) → IsUnit t → bytes.now ≢ unit_text t)) }
{
    let unit = read_unit(alloc, bytes)?;
    Ok(unit)
}

// The unit model whose text the bytes are.
#[tactic(auto, unfolding(crate::specs::Reading::unit_of))]
fn read_unit(alloc: Global, bytes: &[u8]) -> Result<Option<UnitText>, NoMemory>
    ensures { IfOk result (λ o. o ≡ unit_of bytes.now) }
{
    let Some((vertices, length, rest)) = read_head(bytes) else {
        return Ok(None);
    };
    let Some((lefts, rest)) = read_lefts(alloc, vertices, rest)? else {
        return Ok(None);
    };
    match after_word(rest, b"end\n") {
        Some([]) => Ok(Some(UnitText::new(vertices, length, lefts))),
        _ => Ok(None),
    }
}

// The number of vertices and the length.
#[tactic(auto, unfolding(crate::specs::Reading::head_at))]
fn read_head(bytes: &[u8]) -> Option<(u32, u64, &[u8])>
    ensures { option_map head_seen result ≡ head_at bytes.now }
{
    let (vertices, rest) = number_after(bytes, b"pq-unit 1\nvertices ", u64::from(MAX_COLUMNS))?;
    let (length, rest) = number_after(rest, b"\nlength ", u64::MAX)?;
    let rest = after_word(rest, b"\n")?;
    if vertices == 0 {
        return None;
    }
    Some((vertices as u32, length, rest))
}

// The left ends of so many vertices.
fn read_lefts(
    alloc: Global,
    count: u32,
    bytes: &[u8],
) -> Result<Option<(Vec<u64>, &[u8])>, NoMemory>
    ensures read { IfOk result (λ o. option_map lefts_seen o ≡ lefts_at 1 count bytes.now) }
    ensures count { IfOk result (λ o. IfSome o (λ x. length x.0.items ≡ count)) }
{
    let mut lefts = Vec::with_capacity(alloc, count as usize)?;
    let mut rest = bytes;
    'lines: for i in 0..count {
        let Some((left, after)) = read_left(i + 1, rest) else {
            return Ok(None);
        };
        lefts.push(left)?;
        rest = after;
    }
    Ok(Some((lefts, rest)))
}

// The left end of the vertex of this number.
#[tactic(auto, unfolding(crate::specs::Reading::left_at))]
fn read_left(i: u32, bytes: &[u8]) -> Option<(u64, &[u8])>
    ensures { option_map with_rest result ≡ left_at i bytes.now }
{
    let (index, rest) = number_after(bytes, b"unit ", u64::from(MAX_COLUMNS))?;
    let (left, rest) = number_after(rest, b" ", u64::MAX)?;
    let rest = after_word(rest, b"\n")?;
    if index == u64::from(i) {
        Some((left, rest))
    } else {
        None
    }
}

// The number up to a limit that stands behind a word, and the bytes after it.
fn number_after<'a>(bytes: &'a [u8], word: &[u8], limit: u64) -> Option<(u64, &'a [u8])>
    ensures value { option_map with_rest result ≡ option_and_then (number_at limit) (word_at word.now bytes.now) }
    ensures within { IfSome result (λ x. x.0 ≤ limit) }
{
    let rest = after_word(bytes, word)?;
    number(rest, limit)
}
