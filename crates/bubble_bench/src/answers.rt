// The pass over all rows.
ghost use Rattle.std.specs.Prelude.{◌≡◌, ◌+◌, ◌<◌, ◌≤◌, length};
ghost use Rattle.row_model.specs.declared.TheConstants.{ROW_BOUND};
ghost use Rattle.arena_model.specs.NamedTree.{IsOneTree, HasTwoEach};
ghost use Rattle.bubble_pass.specs.Marks.{size_of};

use bubble_pass::{Found, Work, bubble};
use pq_arena::Arena;
use row_model::Matrix;
use step_count::{Ledger, Steps};

/// How many rows have each answer.
#[derive(Drop)]
pub struct Answers {
    pub root: u32,
    pub inside: u32,
    pub split: u32,
}

impl Answers {
    /// No row has an answer yet.
    pub fn none() -> Answers
        ensures { result.root + (result.inside + result.split) ≡ 0 }
    {
        Answers {
            root: 0,
            inside: 0,
            split: 0,
        }
    }

    // One row more has this answer.
    fn count(&mut self, found: Found)
        requires { self.old.root + (self.old.inside + self.old.split) < ROW_BOUND }
        ensures { self.new.root + (self.new.inside + self.new.split) ≡ self.old.root + (self.old.inside + self.old.split) + 1 }
    {
        match found {
            Found::Root(_) => self.root += 1,
            Found::Inside => self.inside += 1,
            Found::Split => self.split += 1,
        }
    }
}

/// Asks each row once. A row without a one has no answer.
pub fn ask_all<L: Ledger>(
    arena: &mut Arena,
    m: &Matrix,
    work: &mut Work,
    steps: &mut Steps<L>,
) -> Answers
    requires tree { IsOneTree arena.old }
    requires two { HasTwoEach arena.old }
    requires columns { arena.old.columns ≡ m.now.columns }
    requires room { size_of work.old ≡ length arena.old.slots }
    ensures arena { arena.new ≡ arena.old }
    ensures room { size_of work.new ≡ size_of work.old }
    ensures few { result.root + (result.inside + result.split) ≤ length m.now.rows }
{
    let _columns = m.columns();
    let mut answers = Answers::none();
    for before in 0..m.rows() {
        ask(arena, m, before + 1, work, &mut answers, steps);
    }
    answers
}

// Asks row `k`.
fn ask<L: Ledger>(
    arena: &mut Arena,
    m: &Matrix,
    k: u32,
    work: &mut Work,
    answers: &mut Answers,
    steps: &mut Steps<L>,
)
    requires tree { IsOneTree arena.old }
    requires two { HasTwoEach arena.old }
    requires columns { arena.old.columns ≡ m.now.columns }
    requires room { size_of work.old ≡ length arena.old.slots }
    requires row { (1 ≤ k) × (k ≤ length m.now.rows) }
    requires few { answers.old.root + (answers.old.inside + answers.old.split) < ROW_BOUND }
    ensures arena { arena.new ≡ arena.old }
    ensures room { size_of work.new ≡ size_of work.old }
    ensures few { answers.new.root + (answers.new.inside + answers.new.split) ≤ answers.old.root + (answers.old.inside + answers.old.split) + 1 }
{
    if m.row(k).is_empty() {
        return;
    }
    answers.count(bubble(arena, m, k, work, steps));
}
