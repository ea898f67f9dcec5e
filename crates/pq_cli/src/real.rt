// The top call over the files and streams of the system, and laws on what a shelf keeps of its files.
ghost use Rattle.std.specs.Prelude.{◌≡◌, ◌⊎◌, ◌≢◌, ◌≤◌, ◌↔◌, List, ℕ, Option, None, Some, IfNone, IsNone, IfSome};
ghost use Rattle.command_input.specs.Words.{Command, texts, command_of};
ghost use Rattle.pq_cli.specs.Replies.{refusal_of};
ghost use Rattle.pq_cli.specs.Answer.{IsAnswer};
ghost use Rattle.file_io.specs.Taken.{Taken};
ghost use Rattle.pq_cli.specs.Runs.{AllFit, OfTaken, AgreesWith, TakesFiles, taken_since, WritesOut, CountsWrites, Offers, IsLineOf};
ghost use Rattle.pq_cli.specs.Promise.{NothingFails, Completes, KeepsPromise};
ghost use Rattle.pq_cli.specs.Real.{names_taken, bytes_taken, RepliesTo};
ghost use Rattle.pq_cli.specs.Told.{AllTold, CompletesOverTold, KeepsPromiseOverTold};

use crate::top::run;
use file_io::{RealShelf, RealSink, Shelf};
use std::alloc::Global;
use std::io::{Input, Stderr, Stdout};
use std::rt::Files;

/// Does what the words ask for over the files and streams of the system: [`run`] at their types, which the program calls.
///
/// The shelf keeps what its reads handed out, and a sink the bytes of the writes that it answered as done. On the statuses
/// 0 and 1 what standard output was sent is a reply to what the files handed out, and on 3 what they handed out is refused.
/// A file that wasn't read to its end counts as any bytes that begin with those that were read.
pub fn run_real<R: Files + Input + Drop>(
    alloc: Global,
    words: &[String],
    files: &mut RealShelf<R>,
    out: &mut RealSink<Stdout>,
    err: &mut RealSink<Stderr>,
) -> u8
    // Shortly: what was read, and what was sent.
    ensures reply { (result ≡ 0) ⊎ (result ≡ 1) → IfSome (command_of (texts words.now)) (λ c.
        OfTaken (taken_since files.old.taken files.new.taken)
        (RepliesTo c result out.old.sent out.new.sent)) }
    ensures refused { result ≡ 3 → IfSome (command_of (texts words.now)) (λ c.
        OfTaken (taken_since files.old.taken files.new.taken) (λ taken. refusal_of c taken ≢ None)) }

    // The clauses of `run`, where a shelf tells no bytes of its files, and a sink tells what it was sent.
    ensures words { (result ≡ 2) ↔ IsNone (command_of (texts words.now)) }
    ensures unread { IfNone (command_of (texts words.now)) (files.new ≡ files.old) }
    ensures files { IfSome (command_of (texts words.now)) (λ c.
        TakesFiles (λ _ _. None) (λ shelf. shelf.taken) (λ shelf. shelf.faults) files.old files.new c
        result) }
    ensures answer { (result ≡ 0) ⊎ (result ≡ 1) → IfSome (command_of (texts words.now)) (λ c.
        OfTaken (taken_since files.old.taken files.new.taken)
        (λ taken. IsAnswer c taken result)) }
    ensures output { IfSome (command_of (texts words.now)) (λ c.
        WritesOut (taken_since files.old.taken files.new.taken) c (Some out.old.sent)
        (Some out.new.sent) result) }
    ensures write_fault { CountsWrites out.old.faults out.new.faults result }
    ensures unwritten { (result ≡ 2) ⊎ (result ≡ 3) ⊎ (result ≡ 4) ⊎ (result ≡ 6)
        → out.new ≡ out.old }
    ensures status { result ≤ 6 }
    ensures quiet { (result ≡ 0) ⊎ (result ≡ 1) → err.new ≡ err.old }
    ensures line { 2 ≤ result → (line : List ℕ)
        × IsLineOf (command_of (texts words.now)) (taken_since files.old.taken files.new.taken) result
        line
        × Offers (Some err.old.sent) (Some err.new.sent) err.old.faults err.new.faults line }
    ensures complete { IfSome (command_of (texts words.now)) (λ c.
        NothingFails files.old.faults files.new.faults out.old.faults out.new.faults result
        → Completes (taken_since files.old.taken files.new.taken) c (Some out.old.sent)
        (Some out.new.sent) result) }
    ensures promise { IfSome (command_of (texts words.now)) (λ c.
        NothingFails files.old.faults files.new.faults out.old.faults out.new.faults result
        → KeepsPromise (taken_since files.old.taken files.new.taken) c (Some out.old.sent)
        (Some out.new.sent) result) }
{
    run(alloc, words, files, out, err)
}

/// What the reads of files handed out may be all of their bytes. So no fact about the bytes of files that were taken is
/// empty.
pub fn own_law()
    ensures { (ts : List Taken) → AllFit ts (bytes_taken ts) }
{}

/// Where a shelf tells the bytes of its files, these are among those that the files may have by what was taken. So a
/// fact about the bytes of files that were taken is one about the bytes that the shelf tells.
pub fn told_law()
    ensures { (told : List ℕ → Option (List ℕ)) (ts : List Taken) (files : List (List ℕ))
        → AgreesWith told ts → AllTold told (names_taken ts) files → AllFit ts files }
{}

/// Where a shelf tells the bytes of its files, what [`run`] says of a run in which nothing fails holds of all files of the
/// command, also of those that were never opened: a refused one gives status 3, and where none is refused the reply was
/// written whole, with status 0 or 1, and keeps the promise.
pub fn told_files_law<F: Shelf>()
    ensures complete { (old new : F) (c : Command) (before after : Option (List ℕ)) (status : ℕ)
        → TakesFiles F.content F.taken F.faults old new c status
        → Completes (taken_since (F.taken old) (F.taken new)) c before after status
        → CompletesOverTold (F.content old) c before after status }
    ensures promise { (old new : F) (c : Command) (before after : Option (List ℕ)) (status : ℕ)
        → TakesFiles F.content F.taken F.faults old new c status
        → Completes (taken_since (F.taken old) (F.taken new)) c before after status
        → KeepsPromise (taken_since (F.taken old) (F.taken new)) c before after status
        → KeepsPromiseOverTold (F.content old) c before after status }
{}
