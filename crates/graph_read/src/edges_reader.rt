// The lists of neighbours of a text of edges that comes in pieces.
ghost use Rattle.std.specs.Prelude.{◌≡◌, ◌⊎◌, ◌+◌, ◌≤◌, ◌++◌, ℕ, List, length, drop, IsFalse, IfOk};
ghost use Rattle.column_order.specs.Orders.{has};
ghost use Rattle.row_model.specs.Rows.{RowList};
ghost use Rattle.row_model.specs.declared.TheConstants.{MAX_FILE_BYTES};
ghost use Rattle.row_model.specs.declared.code.TheConstants.{LIMIT};
ghost use Rattle.row_model.specs.Limits.{within_length};
ghost use Rattle.text_lines.specs.FirstRefusal.{filled_of};
ghost use Rattle.graph_model.specs.declared.TheConstants.{LEFT_BOUND};
ghost use Rattle.graph_model.specs.Graphs.{IsBigraph, IsGraph};
ghost use Rattle.graph_read.specs.Headings.{left_limit};

use crate::headings::Heading;
use crate::heads::refusal;
use crate::lines_read::LinesRead;
use graph_model::LEFT_BOUND;
use row_model::{MAX_FILE_BYTES, Matrix, NoMemory, Read, code};
use std::alloc::Global;
use text_lines::{unmarked_part, whole_len};

/// The reader of the lists of neighbours of a text of at most [`MAX_FILE_BYTES`] bytes that comes in pieces.
#[derive(Drop)]
pub struct EdgesReader {
    is_begun: bool,
    // How many bytes are left of the limit.
    room: u64,
    lines: LinesRead,
    ghost few: { lines.passed + room ≤ MAX_FILE_BYTES },
}

impl EdgesReader {
    ghost use Rattle.graph_read.specs.Pieces.{lists_with, lists_headed};

    /// A reader that has read nothing.
    pub fn new(heading: Heading) -> Self
        requires { left_limit heading ≤ LEFT_BOUND }
        ensures lists { (bytes : List ℕ) → lists_with result bytes ≡ within_length bytes (lists_headed heading (filled_of bytes)) }
        ensures heading { result.lines.heading ≡ heading }
    {
        EdgesReader {
            is_begun: false,
            room: MAX_FILE_BYTES,
            lines: LinesRead::new(heading),
        }
    }

    /// Takes bytes at the front of what is left of the text, and tells how many: all whole lines that are there, unless
    /// the text is past the limit of its length, and so refused whatever follows.
    ///
    /// # Errors
    ///
    /// [`NoMemory`] where memory is refused.
    pub fn take(self, alloc: Global, text: &[u8]) -> Result<(Self, usize), NoMemory>
        ensures within { IfOk result (λ taken. taken.1 ≤ length text.now) }
        ensures lists { IfOk result (λ taken. (rest : List ℕ) → lists_with taken.0 (drop taken.1 text.now ++ rest) ≡ lists_with self (text.now ++ rest)) }
        ensures whole { IfOk result (λ taken. IsFalse (has (drop taken.1 text.now) 10)
            ⊎ ((rest : List ℕ) → lists_with self (text.now ++ rest) ≡ Read.Refused (record { code = LIMIT; line = 0 }))) }
        ensures heading { IfOk result (λ taken. taken.0.lines.heading ≡ self.lines.heading) }
    {
        if text.len() as u64 > self.room {
            return Ok((self, 0));
        }
        let Some(len) = whole_len(text) else {
            return Ok((self, 0));
        };
        let whole = unmarked_part(self.is_begun, &text[..len]);
        let lines = self.lines.with_lines(alloc, whole)?;
        let reader = EdgesReader {
            is_begun: true,
            room: self.room - len as u64,
            lines,
        };
        Ok((reader, len))
    }

    /// The lists of the text, or its first refusal, where these bytes are left of it.
    ///
    /// # Errors
    ///
    /// [`NoMemory`] where memory is refused.
    pub fn finish(self, alloc: Global, text: &[u8]) -> Result<Read<Matrix>, NoMemory>
        ensures lists { IfOk result (λ read. read ≡ lists_with self text.now) }
        ensures sides { IfOk result (λ read. (lists : RowList) → read ≡ Read.Ok lists
            → IsBigraph (record { left = length lists.rows; right = lists.columns; neighbours = lists.rows })) }
        ensures vertices { self.lines.heading ≡ Heading.Vertices → IfOk result (λ read. (lists : RowList) → read ≡ Read.Ok lists
            → IsGraph (record { vertices = lists.columns; neighbours = lists.rows })) }
    {
        if text.len() as u64 > self.room {
            return Ok(Read::Refused(refusal(code::LIMIT, 0)));
        }
        let lines = self
            .lines
            .with_lines(alloc, unmarked_part(self.is_begun, text))?;
        lines.lists(alloc)
    }
}
