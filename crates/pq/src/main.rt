//! The program `pq`: the words, files and streams of the system, handed to the top call.
#![tactic(auto)]

use file_io::{RealShelf, RealSink, write_all};
use pq_cli::run_real;
use std::env::FillError;
use std::process::ExitCode;
use std::rt::Env;
use std::{env, io};

// The words of the command line behind the name of the program, which may be no text.
#[derive(Drop)]
struct BehindName<'a, R>(&'a R);

impl<R: Env> Env for BehindName<'_, R> {
    fn arg(&self, i: usize, buf: &mut [u8]) -> Result<usize, FillError> {
        match i.checked_add(1) {
            Some(next) => self.0.arg(next, buf),
            None => Err(FillError::NotPresent),
        }
    }

    fn var(&self, name: &str, buf: &mut [u8]) -> Result<usize, FillError> {
        self.0.var(name, buf)
    }

    fn var_at(&self, i: usize, buf: &mut [u8]) -> Result<usize, FillError> {
        self.0.var_at(i, buf)
    }
}

// Why there are no words.
enum Unread {
    // One of them is no text in UTF-8.
    NotText,
    // Memory for them is refused.
    NoMemory,
}

// The words behind the name of the program.
fn words_of(rt: &HostRuntime) -> Result<Vec<String>, Unread> {
    let words = match env::args(&(BehindName(rt), rt.alloc())) {
        Ok(words) => words,
        Err(error) if error.kind() == io::ErrorKind::OutOfMemory => return Err(Unread::NoMemory),
        Err(_) => return Err(Unread::NotText),
    };
    words.collect(rt.alloc()).map_err(|_| Unread::NoMemory)
}

fn main(rt: HostRuntime) -> ExitCode {
    let alloc = rt.alloc();
    let mut out = RealSink::output(rt.stdout());
    let mut err = RealSink::error(rt.stderr());
    let words = match words_of(&rt) {
        Ok(words) => words,
        // An empty list of words is outside the grammar, as these are.
        Err(Unread::NotText) => Vec::new(alloc),
        Err(Unread::NoMemory) => {
            let _ = write_all(&mut err, b"pq: no memory\n");
            return ExitCode::from(6);
        }
    };
    let mut files = RealShelf::new(rt);
    let status = run_real(alloc, &words, &mut files, &mut out, &mut err);
    ExitCode::from(status)
}
