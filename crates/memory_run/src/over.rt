// A run over files in memory.
ghost use Rattle.std.specs.Prelude.{◌≡◌, ◌≤◌, IfOk, codes, drop, length, take};
ghost use Rattle.std.specs.Str.{IsUtf8};
ghost use Rattle.std.specs.Str.Lines.{lines};
ghost use Rattle.command_input.specs.Words.{command_of};
ghost use Rattle.memory_run.specs.Called.{IsWholeRun, IsRunOf, IsShown};

use crate::files::HandedOver;
use crate::handing::{Left, handed_over};
use crate::kept::Kept;
use crate::words::words_of;
use pq_cli::{promise_law, run, told_law};
use pq_io::NoMemory;
use std::alloc::Global;

/// Does what the words ask for, one word a line. What is written stands at the front of `out` and of `err`.
pub fn run_bytes(
    alloc: Global,
    words: &[u8],
    first: &[u8],
    second: &[u8],
    out: &mut [u8],
    err: &mut [u8],
) -> Left
    ensures lengths { (length out.new ≡ length out.old) × (length err.new ≡ length err.old) }
    ensures room { (result.written ≤ length out.new) × (result.told ≤ length err.new) }
    ensures behind { (drop result.written out.new ≡ drop result.written out.old)
        × (drop result.told err.new ≡ drop result.told err.old) }
    ensures no_text { (IsUtf8 words.now → ⊥) → (result.status ≡ 2) × (result.written ≡ 0)
        × IsShown (length err.new) (codes "pq: words\n") (take result.told err.new) }
    ensures run { IsUtf8 words.now → IsRunOf (command_of (lines words.now)) first.now second.now
        (length out.new) (length err.new) result.status
        (take result.written out.new) (take result.told err.new) }
{
    let Ok(text) = str::from_utf8(words) else {
        return handed_over(2, b"", b"pq: words\n", out, err);
    };
    match run_text(alloc, text, first, second) {
        Ok(ran) => handed_over(ran.status, &ran.reply, &ran.line, out, err),
        Err(_) => handed_over(6, b"", b"pq: no memory\n", out, err),
    }
}

// What a run left: its status, its reply and its line.
#[derive(Drop)]
struct Ran {
    status: u8,
    reply: Vec<u8>,
    line: Vec<u8>,
}

// The run of the words of a text, one a line, over the two files. It keeps all of the reply and of the line.
fn run_text(alloc: Global, text: &str, first: &[u8], second: &[u8]) -> Result<Ran, NoMemory>
    ensures { IfOk result (λ ran. IsWholeRun (command_of (lines text.now)) first.now second.now
        ran.status ran.reply.items ran.line.items) }
{
    told_law();
    promise_law();
    let words = words_of(alloc, text)?;
    let mut files = HandedOver::new(alloc, first, second)?;
    let mut reply = Kept::new(alloc);
    let mut line = Kept::new(alloc);
    let status = run(alloc, &words, &mut files, &mut reply, &mut line);
    Ok(Ran {
        status,
        reply: reply.whole()?,
        line: line.whole()?,
    })
}
