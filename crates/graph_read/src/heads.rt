// The first line of a file, which stands apart from the others.
ghost use Rattle.std.specs.Prelude.{◌≡◌, IfOk, IfErr};
ghost use Rattle.graph_read.specs.Heads.{IsHeadless, IsHead};

use row_model::{MAX_FILE_BYTES, Refusal, code};
use text_lines::{next_filled_line, without_mark};

/// The first line of a file that is not blank.
#[derive(Clone, Copy)]
pub struct Head<'a> {
    /// The text in which it stands.
    pub text: &'a [u8],
    /// The line.
    pub line: &'a [u8],
    /// Its number, from 1.
    pub number: u32,
    /// The place behind it in the text.
    pub next: usize,
}

/// The first line of a file, or the refusal of a file that is too long or has no line.
pub fn head_of(bytes: &[u8]) -> Result<Head<'_>, Refusal>
    ensures refused { IfErr result (IsHeadless bytes.now) }
    ensures head { IfOk result (λ head. IsHead bytes.now head.text.now head.line.now head.number head.next) }
{
    if bytes.len() as u64 > MAX_FILE_BYTES {
        return Err(refusal(code::LIMIT, 0));
    }
    let text = without_mark(bytes);
    match next_filled_line(text, 0, 0) {
        None => Err(refusal(code::EMPTY, 0)),
        Some(first) => Ok(Head {
            text,
            line: &text[first.span.start..first.span.end],
            number: first.number,
            next: first.span.next,
        }),
    }
}

/// The refusal of this code at this line.
pub fn refusal(code: u8, line: u32) -> Refusal
    ensures { result ≡ record { code = code; line = line } }
{
    Refusal { code, line }
}
