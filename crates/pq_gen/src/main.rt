//! A run of `gen 7 6 4`, which is stored with what it writes: the same bytes, whichever compiler has built it.
#![tactic(auto)]

use file_io::{NoMemory, RealShelf, RealSink};
use pq_cli::run_real;
use std::alloc::Global;
use std::process::ExitCode;

// The words of the command line.
fn words_of(alloc: Global) -> Result<Vec<String>, NoMemory> {
    let mut words = Vec::new(alloc);
    for word in ["gen", "7", "6", "4"] {
        words.push(word.to_string(alloc)?)?;
    }
    Ok(words)
}

fn main(rt: HostRuntime) -> ExitCode {
    let alloc = rt.alloc();
    let mut out = RealSink::output(rt.stdout());
    let mut err = RealSink::error(rt.stderr());
    let Ok(words) = words_of(alloc) else {
        return ExitCode::from(6);
    };
    let mut files = RealShelf::new(rt);
    let status = run_real(alloc, &words, &mut files, &mut out, &mut err);
    ExitCode::from(status)
}
