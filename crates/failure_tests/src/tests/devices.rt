// A run over devices of which one call fails, and what it left.
use pq_cli::run;
use pq_io::{MemShelf, MemSink, NoMemory};
use std::alloc::Global;

// What is run, and how it ends where nothing fails: the words, the bytes of the files `matrix` and `verdict`, and the
// status.
#[derive(Clone, Copy)]
pub struct Case<'a> {
    pub words: &'a [&'a str],
    pub file: &'a [u8],
    pub second: &'a [u8],
    pub status: u8,
}

// The device of which a call fails.
#[derive(Clone, Copy)]
pub enum Device {
    Files,
    Output,
    Errors,
}

// What a run left.
#[derive(Drop)]
pub struct Outcome {
    pub status: u8,
    pub out: MemSink,
    pub err: MemSink,
}

// Whether a run left what is wanted.
pub fn is_left(outcome: &Outcome, status: u8, out: &[u8], err: &[u8]) -> bool {
    outcome.status == status && outcome.out.bytes() == out && outcome.err.bytes() == err
}

// The words as strings.
pub fn texts_of(alloc: Global, words: &[&str]) -> Result<Vec<String>, NoMemory> {
    let mut texts = Vec::new(alloc);
    for word in words {
        texts.push(String::from_str(alloc, word)?)?;
    }
    Ok(texts)
}

// A sink with ample room that takes at most so many bytes at a time.
fn sink_of(alloc: Global, piece: usize) -> Result<MemSink, NoMemory> {
    let mut sink = MemSink::new(alloc);
    sink.reserve(1000)?;
    sink.piece(piece.max(1));
    Ok(sink)
}

// The two files of a case, of which each read gives at most so many bytes.
fn shelf_of(alloc: Global, case: Case<'_>, piece: usize) -> Result<MemShelf, NoMemory> {
    let mut files = MemShelf::new(alloc);
    files.add("matrix", case.file)?;
    files.add("verdict", case.second)?;
    files.piece(piece.max(1));
    Ok(files)
}

// Runs a case over devices that give and take at most so many bytes at a time, and of which this call fails, counted
// from 1; call 0 never comes.
pub fn outcome_over(
    alloc: Global,
    case: Case<'_>,
    piece: usize,
    device: Device,
    call: u64,
) -> Result<Outcome, NoMemory> {
    let texts = texts_of(alloc, case.words)?;
    let mut files = shelf_of(alloc, case, piece)?;
    let mut out = sink_of(alloc, piece)?;
    let mut err = sink_of(alloc, piece)?;
    match device {
        Device::Files => files.fail_at(call)?,
        Device::Output => out.fail_at(call)?,
        Device::Errors => err.fail_at(call)?,
    }
    let status = run(alloc, &texts, &mut files, &mut out, &mut err);
    Ok(Outcome { status, out, err })
}
