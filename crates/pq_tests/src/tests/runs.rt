// Runs as rows of a table, and the first row that is not as it is wanted.
use pq_cli::run;
use pq_io::{MemShelf, MemSink, NoMemory};
use std::alloc::Global;

// Words over the bytes of the files `first` and `second`, and the room of the output and of the line of errors.
#[derive(Clone, Copy)]
pub struct Call<'a> {
    pub words: &'a [&'a str],
    pub files: [&'a [u8]; 2],
    pub room: usize,
    pub err_room: usize,
}

// What a run has to leave: the status, the output and the line of errors.
#[derive(Clone, Copy)]
pub struct Wanted<'a> {
    pub status: u8,
    pub out: &'a [u8],
    pub err: &'a [u8],
}

// Whether a call leaves what is wanted, with ample memory.
pub fn leaves(alloc: Global, call: &Call<'_>, wanted: &Wanted<'_>) -> Result<bool, NoMemory> {
    let mut texts = Vec::new(alloc);
    for word in call.words {
        texts.push(String::from_str(alloc, word)?)?;
    }
    let mut files = MemShelf::new(alloc);
    files.add("first", call.files[0])?;
    files.add("second", call.files[1])?;
    let mut out = MemSink::new(alloc);
    out.reserve(call.room)?;
    let mut err = MemSink::new(alloc);
    err.reserve(call.err_room)?;
    let status = run(alloc, &texts, &mut files, &mut out, &mut err);
    Ok(status == wanted.status && out.bytes() == wanted.out && err.bytes() == wanted.err)
}
