//! Times the bubble pass alone: rows that are drawn by a fixed rule, asked of one long line of
//! columns, round after round.
//!
//! The word of the command line is the number of rounds. It prints the answers of the last one; bench/run.py measures.
#![tactic(auto)]

ghost use Rattle.std.specs.Prelude.{◌≡◌, ◌<◌};

mod answers;
mod line;
mod rows;

use crate::answers::{Answers, ask_all};
use crate::line::{Failure, line};
use crate::rows::{COLUMNS, drawn_rows};
use bubble_pass::Work;
use std::alloc::Global;
use std::process::ExitCode;
use std::{env, io};
use step_count::{Blank, Brand, Ledger, Steps};

// The rounds where the command line has no word.
const ROUNDS: u32 = 3;

// The number of rounds, unless the word is no number.
fn rounds_of(rt: &HostRuntime) -> io::Result<Option<u32>> {
    let mut words = env::args(rt)?;
    let _program = words.next();
    match words.next() {
        Some(word) => Ok(word.parse::<u32>().ok()),
        None => Ok(Some(ROUNDS)),
    }
}

// The answers of the last of so many rounds. The counter of steps begins at the blank.
fn answers_of<L: Ledger>(alloc: Global, rounds: u32, blank: Blank) -> Result<Answers, Failure>
    requires name { blank.name ≡ L.name }
    requires parts { blank.parts ≡ L.parts }
    requires some { 0 < blank.parts }
{
    let mut steps = Steps::<L>::new(blank);
    let mut arena = line(alloc, &mut steps)?;
    let m = drawn_rows(alloc)?;
    let mut work = Work::new(alloc, COLUMNS)?;
    arena.layout_law();
    let mut answers = Answers::none();
    for _ in 0..rounds {
        answers = ask_all(&mut arena, &m, &mut work, &mut steps);
    }
    Ok(answers)
}

fn main(rt: HostRuntime) -> io::Result<ExitCode> {
    let Some(rounds) = rounds_of(&rt)? else {
        eprintln!(rt; "bubble_bench: the word is no number of rounds")?;
        return Ok(ExitCode::from(2));
    };
    match answers_of::<Brand>(rt.alloc(), rounds, Blank::new(1)) {
        Ok(answers) => {
            println!(rt;
                "root {} inside {} split {}",
                answers.root, answers.inside, answers.split
            )?;
            Ok(ExitCode::SUCCESS)
        }
        Err(Failure::NoMemory) => {
            eprintln!(rt; "bubble_bench: no memory")?;
            Ok(ExitCode::from(6))
        }
        Err(Failure::OtherForm) => {
            eprintln!(rt; "bubble_bench: the tree is not the line that was to be built")?;
            Ok(ExitCode::FAILURE)
        }
    }
}
