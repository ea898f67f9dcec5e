// A solver that counts how often it is asked, and what a core costs it.
ghost use Rattle.std.specs.Prelude.{◌≡◌, ◌<◌, length, IfOk};

mod others;

use c1p_solve::answer;
use row_core::{Cored, find_core};
use row_judge::{Judge, Judged};
use row_model::{Matrix, NoMemory};
use std::alloc::Global;
use std::test::Fail;
use step_count::{Blank, Brand, Ledger, Steps};

// What a solver answers, or that memory is refused.
type Judging = Result<Judged, NoMemory>;

// The core that is found, or that memory is refused.
type Outcome = Result<Cored, NoMemory>;

#[derive(Drop)]
struct Counting {
    asked: u64,
}

impl Judge for Counting {
    ghost use Rattle.std.specs.Prelude.{true};

    ghost asked = { λ s. s.asked };

    ghost in_turn = { true };

    fn judge<L: Ledger>(&mut self, alloc: Global, m: &Matrix, steps: &mut Steps<L>) -> Judging {
        self.asked = self.asked.saturating_add(1);
        Ok(answer(alloc, m, steps)?.solved)
    }
}

// A solver that has the one call, and tells nothing else.
#[derive(Drop)]
struct Silent {
    other: Counting,
}

impl Judge for Silent {
    fn judge<L: Ledger>(&mut self, alloc: Global, m: &Matrix, steps: &mut Steps<L>) -> Judging {
        self.other.judge(alloc, m, steps)
    }
}

fn counted<L: Ledger, J: Judge>(alloc: Global, judge: &mut J, m: &Matrix, blank: Blank) -> Outcome
    requires name { blank.name ≡ L.name }
    requires parts { blank.parts ≡ L.parts }
    requires some { 0 < blank.parts }
{
    let mut steps = Steps::<L>::new(blank);
    find_core(alloc, judge, m, &mut steps)
}

// How many rows a core has, where there is one.
fn rows_of(cored: &Cored) -> Option<usize> {
    match cored {
        Cored::Core(core) => Some(core.rows().len()),
        Cored::Has(_) => None,
    }
}

// How many rows the core of a matrix has, where there is one, and how often the solver was asked.
fn found(alloc: Global, m: &Matrix) -> Result<(Option<usize>, u64), NoMemory> {
    let mut judge = Counting { asked: 0 };
    let cored = counted::<Brand, Counting>(alloc, &mut judge, m, Blank::new(1))?;
    Ok((rows_of(&cored), judge.asked))
}

// A row of each two neighbours of five columns.
fn chain(alloc: Global) -> Result<Matrix, NoMemory>
    ensures { IfOk result (λ m. (m.columns ≡ 5) × (length m.rows ≡ 4)) }
{
    let mut m = Matrix::new(alloc, 5)?;
    m.push_row(&[1, 2])?;
    m.push_row(&[2, 3])?;
    m.push_row(&[3, 4])?;
    m.push_row(&[4, 5])?;
    Ok(m)
}

// The chain and one row more, which closes a ring.
fn ring(alloc: Global) -> Result<Matrix, NoMemory>
    ensures { IfOk result (λ m. (m.columns ≡ 5) × (length m.rows ≡ 5)) }
{
    let mut m = chain(alloc)?;
    m.push_row(&[1, 5])?;
    Ok(m)
}

// A matrix that has an order is judged once. Of a ring of five: the whole, the five parts without one row, and no more;
// four of the parts show that their row is needed, and give its order.
#[test]
fn how_often_a_matrix_is_judged(rt: HostRuntime) -> Result<(), Fail> {
    let alloc = rt.alloc();
    assert_eq!(rt; found(alloc, &chain(alloc)?)?, (None, 1));
    assert_eq!(rt; found(alloc, &ring(alloc)?)?, (Some(5), 6));
    Ok(())
}

// The same ring. Whether the rows are gone through in turn is not known of this solver, and it finds the core as well.
#[test]
fn a_core_by_a_solver_that_tells_nothing(rt: HostRuntime) -> Result<(), Fail> {
    let m = ring(rt.alloc())?;
    let mut judge = Silent {
        other: Counting { asked: 0 },
    };
    let cored = counted::<Brand, Silent>(rt.alloc(), &mut judge, &m, Blank::new(1))?;
    assert_eq!(rt; rows_of(&cored), Some(5));
    Ok(())
}
