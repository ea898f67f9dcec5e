// The lines of a text, by their places.
ghost use Rattle.std.specs.Prelude.{◌≡◌, ◌+◌, ◌^◌, ◌<◌, ◌≤◌, ◌↔◌, ◌∷◌, [], length, drop, slice_range, min, IsNone, IfNone, IfSome};
ghost use Rattle.text_lines.specs.Lines.{line_len, first_line, without_return, without_mark, lines_of, is_blank, filled_lines};

use memchr::memchr;

/// Where a line stands in a text, and where the next one begins.
#[derive(Clone, Copy, Debug, PartialEq, Eq)]
pub struct LineSpan {
    /// The place of the line's first byte.
    pub start: usize,
    /// The place after the line's last byte.
    pub end: usize,
    /// The place after the line feed, or the end of the text.
    pub next: usize,
}

/// A line that is not blank.
#[derive(Clone, Copy, Debug, PartialEq, Eq)]
pub struct FilledLine {
    /// The number of the line, from 1. Blank lines count.
    pub number: u32,
    /// Where it stands.
    pub span: LineSpan,
}

/// The bytes without the byte order mark EF BB BF, if they begin with it.
pub fn without_mark(bytes: &[u8]) -> &[u8]
    ensures text { result.now ≡ without_mark bytes.now }
    ensures within { length result.now ≤ length bytes.now }
{
    match bytes {
        [a, b, c, text @ ..] if *a == 0xEF && *b == 0xBB && *c == 0xBF => text,
        _ => bytes,
    }
}

/// The line that begins at a place; none exactly at the end of the text.
///
/// A line ends before the first line feed, or at the end of the text. One carriage return at its end is no part of it.
pub fn next_line(bytes: &[u8], at: usize) -> Option<LineSpan>
    requires { at ≤ length bytes.now }
    ensures none { IsNone result ↔ (at ≡ length bytes.now) }
    ensures start { IfSome result (λ line. line.start ≡ at) }
    ensures end { IfSome result (λ line. line.end ≡ at + length (without_return (first_line (drop at bytes.now)))) }
    ensures next { IfSome result (λ line. line.next ≡ min (at + line_len (drop at bytes.now) + 1) (length bytes.now)) }
    ensures within { IfSome result (λ line. line.end ≤ length bytes.now) }
    ensures nothing { IfNone result (lines_of (drop at bytes.now) ≡ []) }
    ensures lines { IfSome result (λ line. lines_of (drop at bytes.now) ≡ slice_range bytes.now line.start line.end ∷ lines_of (drop line.next bytes.now)) }
{
    if at == bytes.len() {
        return None;
    }
    Some(line_from(bytes, at))
}

/// The line that begins at a place before the end of the text.
pub fn line_from(bytes: &[u8], at: usize) -> LineSpan
    requires { at < length bytes.now }
    ensures start { result.start ≡ at }
    ensures end { result.end ≡ at + length (without_return (first_line (drop at bytes.now))) }
    ensures next { result.next ≡ min (at + line_len (drop at bytes.now) + 1) (length bytes.now) }
    ensures within { result.end ≤ length bytes.now }
    ensures line { slice_range bytes.now result.start result.end ≡ without_return (first_line (drop at bytes.now)) }
    ensures lines { lines_of (drop at bytes.now) ≡ slice_range bytes.now result.start result.end ∷ lines_of (drop result.next bytes.now) }
{
    let stop = line_end(bytes, at);
    let next = if stop < bytes.len() { stop + 1 } else { stop };
    LineSpan {
        start: at,
        end: at + len_without_return(&bytes[at..stop]),
        next,
    }
}

// Where the first line feed from a place on stands, or the end.
fn line_end(bytes: &[u8], at: usize) -> usize
    requires { at ≤ length bytes.now }
    ensures place { result ≡ at + line_len (drop at bytes.now) }
    ensures within { result ≤ length bytes.now }
{
    match memchr(b'\n', &bytes[at..]) {
        Some(len) => at + len,
        None => bytes.len(),
    }
}

// How long a line is without a carriage return at its end.
#[tactic(auto, using(crate::proofs::LineLemmas::length_return_dropped, crate::proofs::LineLemmas::length_return_none))]
fn len_without_return(line: &[u8]) -> usize
    ensures line { result ≡ length (without_return line.now) }
    ensures within { result ≤ length line.now }
{
    let len = line.len();
    if len > 0 && line[len - 1] == b'\r' {
        len - 1
    } else {
        len
    }
}

/// The first line from a place on that is not blank, where `passed` lines stand before the place.
pub fn next_filled_line(text: &[u8], at: usize, passed: u32) -> Option<FilledLine>
    requires short { length text.now < 2 ^ 32 }
    requires at { at ≤ length text.now }
    requires passed { passed ≤ at }
    ensures none { IfNone result (filled_lines (passed + 1) (lines_of (drop at text.now)) ≡ []) }
    ensures line { IfSome result (λ line. filled_lines (passed + 1) (lines_of (drop at text.now)) ≡ record { number = line.number; text = slice_range text.now line.span.start line.span.end } ∷ filled_lines (line.number + 1) (lines_of (drop line.span.next text.now))) }
    ensures span { IfSome result (λ line. (line.span.start ≤ line.span.end) × (line.span.end ≤ length text.now)) }
    ensures further { IfSome result (λ line. (at < line.span.next) × (line.span.next ≤ length text.now)) }
    ensures number { IfSome result (λ line. line.number ≤ line.span.next) }
{
    let mut place = at;
    let mut number = passed;
    while let Some(span) = next_line(text, place) {
        number += 1;
        if !is_blank(&text[span.start..span.end]) {
            return Some(FilledLine { number, span });
        }
        place = span.next;
    }
    None
}

// Whether a line has no word.
fn is_blank(line: &[u8]) -> bool
    ensures { result ≡ is_blank line.now }
{
    line.iter().all(|b| *b == b' ' || *b == b'\t')
}
