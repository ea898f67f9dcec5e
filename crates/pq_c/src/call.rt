// What C calls.
ghost use Rattle.std.specs.Prelude.{◌≡◌, ◌≤◌, codes, drop, length, take};
ghost use Rattle.std.specs.Str.{IsUtf8};
ghost use Rattle.std.specs.Str.Lines.{lines};
ghost use Rattle.command_input.specs.Words.{command_of};
ghost use Rattle.memory_run.specs.Called.{IsRunOf, IsShown};

use memory_run::run_in_memory;
use std::alloc::Global;

/// Does what the words ask for, as the program does, one word a line, over files of the names `1` and `2`. The reply
/// goes to the front of `out`, and the line that tells what stood in its way to the front of `err`; `written` and
/// `told` are their lengths. The bytes behind them stay as they were. The status is that of the program.
///
/// | Status | Meaning |
/// |---|---|
/// | 0, 1 | the reply is there whole, and no line |
/// | 2 | the words are outside the grammar, or no UTF-8 |
/// | 3 | a file is refused; the line says which, and why |
/// | 4 | the words name another file than `1` and `2`, and no file before it is refused |
/// | 5 | the reply is longer than `out`, which its first bytes fill: call again with more |
/// | 6 | memory is refused |
///
/// That memory was refused has no clause, as in the program. On 2 to 6 there is the line of the program, unless `err`
/// has less room than it takes: then there is none. 64 bytes are enough, which is tested.
#[unsafe(no_mangle)]
pub extern "C" fn pq_c_run(
    alloc: Global,
    words: &[u8],
    first: &[u8],
    second: &[u8],
    out: &mut [u8],
    written: &mut usize,
    err: &mut [u8],
    told: &mut usize,
) -> u8
    ensures lengths { (length out.new ≡ length out.old) × (length err.new ≡ length err.old) }
    ensures room { (written.new ≤ length out.new) × (told.new ≤ length err.new) }
    ensures behind { (drop written.new out.new ≡ drop written.new out.old)
        × (drop told.new err.new ≡ drop told.new err.old) }
    ensures no_text { (IsUtf8 words.now → ⊥) → (result ≡ 2) × (written.new ≡ 0)
        × IsShown (length err.new) (codes "pq: words\n") (take told.new err.new) }
    ensures run { IsUtf8 words.now → IsRunOf (command_of (lines words.now)) first.now second.now
        (length out.new) (length err.new) result (take written.new out.new) (take told.new err.new) }
{
    run_in_memory(alloc, words, first, second, out, written, err, told)
}
