// The run over two files in memory, as other languages call it.
ghost use Rattle.std.specs.Prelude.{◌≡◌, ◌≤◌, codes, drop, length, take};
ghost use Rattle.std.specs.Str.{IsUtf8};
ghost use Rattle.std.specs.Str.Lines.{lines};
ghost use Rattle.command_input.specs.Words.{command_of};
ghost use Rattle.memory_run.specs.Called.{IsRunOf, IsShown};

use crate::over::run_bytes;
use std::alloc::Global;

/// Does what the words ask for, as the program does, one word a line, over files of the names `1` and `2`. The reply
/// goes to the front of `out`, and the line that tells what stood in its way to the front of `err`; `written` and
/// `told` are their lengths. The bytes behind them stay as they were. The status is that of the program; it is 4 where
/// the words name another file, 5 where the reply is longer than `out`, and 6 where memory is refused.
pub fn run_in_memory(
    alloc: Global,
    words: &[u8],
    first: &[u8],
    second: &[u8],
    out: &mut [u8],
    written: &mut usize,
    err: &mut [u8],
    told: &mut usize,
) -> u8
    ensures lengths { (length out.new ≡ length out.old) × (length err.new ≡ length err.old) }
    ensures room { (written.new ≤ length out.new) × (told.new ≤ length err.new) }
    ensures behind { (drop written.new out.new ≡ drop written.new out.old)
        × (drop told.new err.new ≡ drop told.new err.old) }
    ensures no_text { (IsUtf8 words.now → ⊥) → (result ≡ 2) × (written.new ≡ 0)
        × IsShown (length err.new) (codes "pq: words\n") (take told.new err.new) }
    ensures run { IsUtf8 words.now → IsRunOf (command_of (lines words.now)) first.now second.now
        (length out.new) (length err.new) result (take written.new out.new) (take told.new err.new) }
{
    let left = run_bytes(alloc, words, first, second, out, err);
    *written = left.written;
    *told = left.told;
    left.status
}
