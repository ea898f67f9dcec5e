// The top call: one command, from the words to the status.
ghost use Rattle.std.specs.Prelude.{◌≡◌, ◌⊎◌, ◌↔◌, ◌<◌, ◌≤◌, IfNone, IfOk, IfErr, IsNone, List, ℕ, IfSome};
ghost use Rattle.command_input.specs.Words.{texts, command_of};
ghost use Rattle.pq_cli.specs.Answer.{IsAnswer};
ghost use Rattle.pq_cli.specs.Runs.{OfTaken, TakesFiles, taken_since, WritesOut, CountsWrites, Offers, IsLineOf, failure_line};
ghost use Rattle.pq_cli.specs.Stops.{run_status, failure_status};
ghost use Rattle.pq_cli.specs.Steps.{CountsSteps};
ghost use Rattle.pq_cli.specs.Promise.{NothingFails, Completes, KeepsPromise};
ghost use Rattle.pq_cli.specs.Run.{RunsWords};

use crate::command::perform;
use crate::replies::promise::{answer_law, promise_law};
use crate::report::report;
use crate::stop::Failure;
use commands::task_of;
use file_io::{Shelf, Sink, write_all};
use std::alloc::Global;
use step_count::{Blank, Brand, Ledger, Steps};

/// Does what the words ask for, and answers the exit status.
///
/// The words are one of these, with KIND one of `matrix`, `rows`, `table`, `circular`, `convex`, `doubly`, `proper`,
/// `robinson` and `clones`:
///
/// - `solve KIND FILE`: the orders of an instance;
/// - `check KIND FILE VERDICT`: whether a verdict on an instance is true;
/// - `extend KIND FILE ROWS`, with KIND `matrix`, `rows` or `table`: further rows, taken in turn after those of a
///   matrix as long as a valid order is left;
/// - `core KIND FILE`, with KIND as in `extend`: rows of a matrix that have no valid order together, of
///   which none can be left out;
/// - `check-core KIND FILE CORE`, with KIND as in `extend`: whether a text names such rows;
/// - `list KIND FILE K`, with KIND as in `extend`: the first K valid orders of a matrix, compared as lists of numbers.
///   K is decimal digits, leading zeros allowed, from 1 to 10,000;
/// - `unit FILE`: intervals of one length for a graph in the form of `proper`;
/// - `check-unit FILE UNIT`: whether a text has such intervals of a graph;
/// - `gen SEED COLUMNS ROWS`: a matrix that a number draws, summed up. The words are decimal digits, leading zeros
///   allowed: SEED of at most 64 bits, COLUMNS from 1 to 2,048, ROWS at most 131,072;
/// - `meet COLUMNS TREE1 TREE2`, with COLUMNS as in `gen`: the orders that two trees over these columns share.
///
/// Of two names of files not both are `-`. The files are read from `files` in turn, the reply is written to `out`, and
/// on the statuses 2 to 6 one line is offered to `err`, whose faults change nothing.
///
/// | Status | Meaning |
/// |---|---|
/// | 0 | `solve`: the instance has a textbook order of its kind, on each side; `check`: the verdict is valid; `extend` and `list`: the matrix has a valid order; `core`: it has none; `check-core`: the core is valid; `unit`: the graph has a unit model; `check-unit`: the model is valid; `meet`: the trees share an order; `gen`: done |
/// | 1 | `solve`: the instance has no textbook order of its kind, on one side at least; `check`: the verdict is invalid; `extend` and `list`: the matrix has no valid order; `core`: it has one; `check-core`: the core is invalid; `unit`: the graph has no unit model; `check-unit`: the model is invalid; `meet`: the trees share no order |
/// | 2 | the words are outside the grammar; nothing is read, and nothing is written to `out` |
/// | 3 | the file of the instance, of further rows or of a tree is refused |
/// | 4 | a file can't be read |
/// | 5 | the reply can't be written; some first bytes of it were |
/// | 6 | memory is refused |
pub fn run<F: Shelf, O: Sink, E: Sink>(
    alloc: Global,
    words: &[String],
    files: &mut F,
    out: &mut O,
    err: &mut E,
) -> u8
    // The words are judged first.
    ensures words { (result ≡ 2) ↔ IsNone (command_of (texts words.now)) }
    ensures unread { IfNone (command_of (texts words.now)) (files.new ≡ files.old) }

    // The files are read in turn, and a file that can't be read or is refused gives the status.
    ensures files { IfSome (command_of (texts words.now)) (λ c.
        TakesFiles F.content F.taken F.faults files.old files.new c result) }

    // Shortly: what the status answers.
    ensures answer { (result ≡ 0) ⊎ (result ≡ 1) → IfSome (command_of (texts words.now)) (λ c.
        OfTaken (taken_since (F.taken files.old) (F.taken files.new))
        (λ taken. IsAnswer c taken result)) }

    // What is written is a reply to the bytes of the files.
    ensures output { IfSome (command_of (texts words.now)) (λ c.
        WritesOut (taken_since (F.taken files.old) (F.taken files.new)) c (O.written out.old) (O.written out.new) result) }
    ensures write_fault { CountsWrites (O.faults out.old) (O.faults out.new) result }
    ensures unwritten { (result ≡ 2) ⊎ (result ≡ 3) ⊎ (result ≡ 4) ⊎ (result ≡ 6)
        → out.new ≡ out.old }

    // No other status comes.
    ensures status { result ≤ 6 }

    // What stands in the way is told of.
    ensures quiet { (result ≡ 0) ⊎ (result ≡ 1) → err.new ≡ err.old }
    ensures line { 2 ≤ result → (line : List ℕ)
        × IsLineOf (command_of (texts words.now))
        (taken_since (F.taken files.old) (F.taken files.new)) result line
        × Offers (E.written err.old) (E.written err.new) (E.faults err.old) (E.faults err.new)
        line }

    // Unless a read or a write fails or memory is refused, a refused file is told as refused, and well-formed files are
    // answered: an instance is solved exactly, and a verdict on it judged truly.
    ensures complete { IfSome (command_of (texts words.now)) (λ c.
        NothingFails (F.faults files.old) (F.faults files.new) (O.faults out.old)
        (O.faults out.new) result
        → Completes (taken_since (F.taken files.old) (F.taken files.new)) c (O.written out.old) (O.written out.new) result) }
    ensures promise { IfSome (command_of (texts words.now)) (λ c.
        NothingFails (F.faults files.old) (F.faults files.new) (O.faults out.old)
        (O.faults out.new) result
        → KeepsPromise (taken_since (F.taken files.old) (F.taken files.new)) c (O.written out.old) (O.written out.new) result) }
{
    run_from::<F, O, E, Brand>(alloc, words, files, out, err, Blank::new(1))
}

// The same. The counter of steps begins at the blank.
fn run_from<F: Shelf, O: Sink, E: Sink, L: Ledger>(
    alloc: Global,
    words: &[String],
    files: &mut F,
    out: &mut O,
    err: &mut E,
    blank: Blank,
) -> u8
    requires name { blank.name ≡ L.name }
    requires parts { blank.parts ≡ L.parts }
    requires some { 0 < blank.parts }
    ensures runs { RunsWords F.content F.taken F.faults O.written O.faults E.written E.faults
        (command_of (texts words.now)) files.old files.new out.old out.new err.old err.new result }
{
    let mut steps = Steps::<L>::new(blank);
    run_counted(alloc, words, files, out, err, &mut steps)
}

/// What [`run`] does, on a counter of steps that is lent: [`run`] makes one and is this call.
///
/// No step is taken before all files of the command are asked for, and none where a file is refused or can't be read.
/// Else, with status 0, `solve` and `unit` take at most 1024 steps for each column, row and one of the derived matrices.
/// With any other status they take at most 8c(f + 1) more, c and f being the columns and ones of the matrix of a side; so
/// do `list` and `gen` of their matrix. `extend`, with status 0, takes such steps for its base and the rows that it
/// accepts, 512c for each row that it refuses, and a search for each of the first 16 of these. `meet` takes those of its
/// matrix, the rows of both trees. `core`, with status 0, takes those of two answers for each row of a core, and one more;
/// where memory is refused or the reply can't be written, for each row of the matrix. `check`, `check-core` and
/// `check-unit` solve nothing, and take no step.
pub fn run_counted<F: Shelf, O: Sink, E: Sink, L: Ledger>(
    alloc: Global,
    words: &[String],
    files: &mut F,
    out: &mut O,
    err: &mut E,
    steps: &mut Steps<L>,
) -> u8
    // What the steps come to.
    ensures idle { IfNone (command_of (texts words.now)) (steps.new ≡ steps.old) }
    ensures steps { IfSome (command_of (texts words.now)) (λ c.
        CountsSteps c (taken_since (F.taken files.old) (F.taken files.new)) result steps.old steps.new) }

    // Each clause of `run`, under its name.
    ensures runs { RunsWords F.content F.taken F.faults O.written O.faults E.written E.faults
        (command_of (texts words.now)) files.old files.new out.old out.new err.old err.new result }
{
    promise_law();
    answer_law();
    let ended = decide(alloc, words, files, out, steps);
    tell(ended, err)
}

// The status of a run that ended so. Of a failure the line is offered.
fn tell<E: Sink>(ended: Result<u8, Failure>, err: &mut E) -> u8
    ensures status { result ≡ run_status ended }
    ensures quiet { IfOk ended (λ _. err.new ≡ err.old) }
    ensures line { IfErr ended (λ failure.
        Offers (E.written err.old) (E.written err.new) (E.faults err.old) (E.faults err.new)
        (failure_line failure)) }
{
    match ended {
        Ok(status) => status,
        Err(failure) => {
            report(&failure, err);
            failure.status()
        }
    }
}

/// What [`run_counted`] does before its line on the sink of errors, which this call isn't handed. It answers the status
/// of a reply that was written whole.
///
/// # Errors
///
/// Why there is no such reply. The body of [`run_counted`] is this call; for a failure it offers the line, and answers
/// the status.
pub fn decide<F: Shelf, O: Sink, L: Ledger>(
    alloc: Global,
    words: &[String],
    files: &mut F,
    out: &mut O,
    steps: &mut Steps<L>,
) -> Result<u8, Failure>
    ensures idle { IfNone (command_of (texts words.now)) (steps.new ≡ steps.old) }
    ensures steps { IfSome (command_of (texts words.now)) (λ c.
        CountsSteps c (taken_since (F.taken files.old) (F.taken files.new)) (run_status result)
        steps.old steps.new) }
    ensures words { (run_status result ≡ 2) ↔ IsNone (command_of (texts words.now)) }
    ensures unread { IfNone (command_of (texts words.now)) (files.new ≡ files.old) }
    ensures files { IfSome (command_of (texts words.now)) (λ c.
        TakesFiles F.content F.taken F.faults files.old files.new c (run_status result)) }
    ensures output { IfSome (command_of (texts words.now)) (λ c.
        WritesOut (taken_since (F.taken files.old) (F.taken files.new)) c (O.written out.old) (O.written out.new)
        (run_status result)) }
    ensures write_fault { CountsWrites (O.faults out.old) (O.faults out.new) (run_status result) }
    ensures unwritten { (run_status result ≡ 2) ⊎ (run_status result ≡ 3) ⊎ (run_status result ≡ 4)
        ⊎ (run_status result ≡ 6) → out.new ≡ out.old }
    ensures status { IfOk result (λ status. (status ≡ 0) ⊎ (status ≡ 1)) }
    ensures line { IfErr result (λ failure.
        IsLineOf (command_of (texts words.now))
        (taken_since (F.taken files.old) (F.taken files.new)) (failure_status failure) (failure_line failure)) }
{
    let Some(task) = task_of(words) else {
        return Err(Failure::Words);
    };
    let reply = perform(alloc, &task, files, steps)?;
    match write_all(out, &reply.text) {
        Ok(()) => Ok(reply.status),
        Err(_) => Err(Failure::WriteFault),
    }
}
