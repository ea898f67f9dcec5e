// The lines of what a kind adds to a yes, both ways.
ghost use Rattle.std.specs.Prelude.{◌≡◌, ◌≤◌, ◌++◌, IfOk, OnOk, OnErr};
ghost use Rattle.plain_text.specs.Numbers.{number_at};
ghost use Rattle.plain_text.specs.Pieces.{Extends};
ghost use Rattle.plain_text.specs.Rest.{with_rest};
ghost use Rattle.text_parts.specs.Seen.{Gives};
ghost use Rattle.verdict_text.specs.Reading.{interval_at, place_at, where_at, contig_at, ends_at, two_at};
ghost use Rattle.verdict_text.specs.Text.{interval_line, ends_text, place_text, place_line, contig_line};

use crate::NoMemory;
use crate::read::after_index;
use plain_text::{after_word, number, push_number};
use row_model::{Interval, Place, Span};
use text_parts::{LineForm, Stop, after, push, push_word};

// The line of an interval.
pub(crate) struct IntervalLine;

impl LineForm for IntervalLine {
    type Item = Interval;

    const LEAST: usize = 15;

    ghost LEAST = { 15 };

    ghost line_text = { interval_line };

    ghost line_at = { interval_at };

    fn print(i: u64, interval: Interval, text: &mut Vec<u8>) -> Result<(), NoMemory> {
        push(text, b"interval ")?;
        push_number(text, i)?;
        push_word(interval.left, text)?;
        push_word(interval.right, text)?;
        push(text, b"\n")
    }

    #[tactic(auto, unfolding(crate::specs::Reading::interval_at))]
    fn read(i: u32, bytes: &[u8]) -> Result<(Interval, &[u8]), Stop> {
        let rest = after_index(bytes, b"interval ", i)?;
        let ((left, right), rest) = read_two(rest, u64::MAX)?;
        Ok((Interval { left, right }, rest))
    }

    fn room_law() {}
}

// The line of a clone's place.
pub(crate) struct PlaceLine;

impl LineForm for PlaceLine {
    type Item = Place;

    const LEAST: usize = 12;

    ghost LEAST = { 12 };

    ghost line_text = { place_line };

    ghost line_at = { place_at };

    fn print(i: u64, place: Place, text: &mut Vec<u8>) -> Result<(), NoMemory> {
        push(text, b"place ")?;
        push_number(text, i)?;
        push_place_ends(place, text)
    }

    #[tactic(auto, unfolding(crate::specs::Reading::place_at))]
    fn read(i: u32, bytes: &[u8]) -> Result<(Place, &[u8]), Stop> {
        let rest = after_index(bytes, b"place ", i)?;
        read_where(rest)
    }

    fn room_law() {}
}

fn read_where(bytes: &[u8]) -> Result<(Place, &[u8]), Stop>
    ensures { Gives with_rest result (where_at bytes.now) }
{
    match after_word(bytes, b" none\n") {
        Some(rest) => Ok((Place::Nowhere, rest)),
        None => {
            let (Span { first, last }, rest) = read_ends(bytes)?;
            Ok((Place::At { first, last }, rest))
        }
    }
}

fn push_place_ends(place: Place, text: &mut Vec<u8>) -> Result<(), NoMemory>
    ensures ok { OnOk result (text.new.items ≡ text.old.items ++ place_text place) }
    ensures err { OnErr result (Extends text.old.items text.new.items) }
{
    match place {
        Place::Nowhere => push(text, b" none\n"),
        Place::At { first, last } => push_ends(first, last, text),
    }
}

fn push_ends(first: u32, last: u32, text: &mut Vec<u8>) -> Result<(), NoMemory>
    ensures ok { OnOk result (text.new.items ≡ text.old.items ++ ends_text first last) }
    ensures err { OnErr result (Extends text.old.items text.new.items) }
{
    push_word(u64::from(first), text)?;
    push_word(u64::from(last), text)?;
    push(text, b"\n")
}

// The line of a contig, which has no number.
pub(crate) struct ContigLine;

impl LineForm for ContigLine {
    type Item = Span;

    const LEAST: usize = 11;

    ghost LEAST = { 11 };

    ghost line_text = { λ _ contig. contig_line contig };

    ghost line_at = { contig_at };

    fn print(_: u64, contig: Span, text: &mut Vec<u8>) -> Result<(), NoMemory> {
        push(text, b"contig")?;
        push_ends(contig.first, contig.last, text)
    }

    #[tactic(auto, unfolding(crate::specs::Reading::contig_at))]
    fn read(_: u32, bytes: &[u8]) -> Result<(Span, &[u8]), Stop> {
        let rest = after(bytes, b"contig")?;
        read_ends(rest)
    }

    fn room_law() {}
}

// The two ends of a span, and the end of the line.
#[tactic(auto, unfolding(crate::specs::Reading::ends_at))]
fn read_ends(bytes: &[u8]) -> Result<(Span, &[u8]), Stop>
    ensures { Gives with_rest result (ends_at bytes.now) }
{
    let ((first, last), rest) = read_two(bytes, u64::from(u32::MAX))?;
    let span = Span {
        first: first as u32,
        last: last as u32,
    };
    Ok((span, rest))
}

// Two numbers up to a limit, each behind a space, and the end of the line.
#[tactic(auto, unfolding(crate::specs::Reading::two_at))]
fn read_two(bytes: &[u8], limit: u64) -> Result<((u64, u64), &[u8]), Stop>
    ensures value { Gives with_rest result (two_at limit bytes.now) }
    ensures within { IfOk result (λ x. (x.0.0 ≤ limit) × (x.0.1 ≤ limit)) }
{
    let rest = after(bytes, b" ")?;
    let (first, rest) = read_end(rest, limit)?;
    let rest = after(rest, b" ")?;
    let (last, rest) = read_end(rest, limit)?;
    let rest = after(rest, b"\n")?;
    Ok(((first, last), rest))
}

// A number up to a limit.
fn read_end(bytes: &[u8], limit: u64) -> Result<(u64, &[u8]), Stop>
    ensures value { Gives with_rest result (number_at limit bytes.now) }
    ensures within { IfOk result (λ x. x.0 ≤ limit) }
{
    match number(bytes, limit) {
        None => Err(Stop::Outside),
        Some(x) => Ok(x),
    }
}
