// The words of a run, one a line.
ghost use Rattle.std.specs.Prelude.{◌≡◌, map, IfOk};
ghost use Rattle.std.specs.Str.Lines.{lines};
ghost use Rattle.command_input.specs.Words.{texts};

use pq_io::NoMemory;
use std::alloc::Global;

/// The lines of a text, as words.
pub fn words_of(alloc: Global, text: &str) -> Result<Vec<String>, NoMemory>
    ensures { IfOk result (λ words. texts words.items ≡ lines text.now) }
{
    owned(alloc, &lines_of(alloc, text)?)
}

fn lines_of(alloc: Global, text: &str) -> Result<Vec<&str>, NoMemory>
    ensures { IfOk result (λ found. map (λ line. line.now) found.items ≡ lines text.now) }
{
    text.lines().collect(alloc)
}

fn owned(alloc: Global, parts: &[&str]) -> Result<Vec<String>, NoMemory>
    ensures { IfOk result (λ words. texts words.items ≡ map (λ part. part.now) parts.now) }
{
    let mut words = Vec::new(alloc);
    for part in parts {
        words.push(String::from_str(alloc, part)?)?;
    }
    Ok(words)
}
