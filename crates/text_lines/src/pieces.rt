// Texts that come in pieces.
ghost use Rattle.std.specs.Prelude.{◌≡◌, ◌≤◌, ◌++◌, Bool, ℕ, List, length, take, drop, IsFalse, IfSome, IfNone};
ghost use Rattle.column_order.specs.Orders.{has};
ghost use Rattle.text_lines.specs.Lines.{lines_of, unmarked_part};

use crate::lines::without_mark;
use memchr::memrchr;

/// How many bytes of a part of a text are whole lines: those up to its last line feed. None where it has no line feed.
///
/// These lines come first, whatever follows the part, and then the lines of the bytes behind them.
pub fn whole_len(text: &[u8]) -> Option<usize>
    ensures none { IfNone result (IsFalse (has text.now 10)) }
    ensures within { IfSome result (λ len. (1 ≤ len) × (len ≤ length text.now)) }
    ensures behind { IfSome result (λ len. IsFalse (has (drop len text.now) 10)) }
    ensures lines { IfSome result (λ len. (is_begun : Bool) (rest : List ℕ) → lines_of (unmarked_part is_begun (text.now ++ rest))
        ≡ lines_of (unmarked_part is_begun (take len text.now)) ++ lines_of (drop len text.now ++ rest)) }
{
    let last = memrchr(b'\n', text)?;
    Some(last + 1)
}

/// A part of a text from its start on without its byte order mark, and any later part as it is.
pub fn unmarked_part(is_begun: bool, text: &[u8]) -> &[u8]
    ensures text { result.now ≡ unmarked_part is_begun text.now }
    ensures within { length result.now ≤ length text.now }
{
    if is_begun { text } else { without_mark(text) }
}
