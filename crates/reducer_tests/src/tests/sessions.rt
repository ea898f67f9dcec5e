// Sessions: further rows are taken, refused with and without a cycle, and taken again.
ghost use Rattle.std.specs.Prelude.{◌<◌};
ghost use Rattle.row_model.specs.Rows.{IsRow};

use super::both::assert_text;
use super::counted::{Check, run_counted};
use super::marks::matrix_of;
use c1p_solve::{Session, Started, Taken};
use row_model::NoMemory;
use std::alloc::Global;
use std::process::Abort;
use std::test::Fail;
use step_count::{Ledger, Steps};
use tree_theory::Reducer;

// What becomes of a row.
#[derive(Clone, Copy, Drop)]
enum Wanted {
    Taken,
    Refused,
    RefusedWithCycle,
}

// Gives the session a row over three columns, and compares what becomes of it.
fn assert_becomes<L: Ledger>(
    rt: &impl Abort,
    session: &mut Session,
    row: &[u32],
    explain: bool,
    wanted: Wanted,
    steps: &mut Steps<L>,
) -> Result<(), NoMemory>
    requires { IsRow 3 row.now }
{
    assert_eq!(rt; session.matrix().columns(), 3);
    assert!(rt; session.matrix().rows() <= 8);
    let is_wanted = match session.take_row(row, explain, steps)? {
        Taken::Ok => matches!(wanted, Wanted::Taken),
        Taken::No(None) => matches!(wanted, Wanted::Refused),
        Taken::No(Some(_)) => matches!(wanted, Wanted::RefusedWithCycle),
    };
    assert!(rt; is_wanted, "at {row:?}");
    Ok(())
}

// A session of the row 110 takes 011, refuses 101 with and without a cycle, and takes 111 then.
fn assert_goes_on<L: Ledger>(
    rt: &impl Abort,
    session: &mut Session,
    steps: &mut Steps<L>,
) -> Result<(), NoMemory> {
    assert_becomes(rt, session, &[2, 3], true, Wanted::Taken, steps)?;
    assert_becomes(rt, session, &[1, 3], true, Wanted::RefusedWithCycle, steps)?;
    assert_becomes(rt, session, &[1, 3], false, Wanted::Refused, steps)?;
    assert_becomes(rt, session, &[1, 2, 3], true, Wanted::Taken, steps)
}

// The session has three rows, and its tree and that of its reducer are the same.
fn assert_stands(rt: &impl Abort, alloc: Global, session: &Session) -> Result<(), NoMemory> {
    assert_eq!(rt; session.matrix().rows(), 3);
    assert_text(rt, alloc, &session.tree()?, b"[1 2 3]", &[1, 2, 3])?;
    assert_text(
        rt,
        alloc,
        &session.reducer().tree(alloc)?,
        b"[1 2 3]",
        &[1, 2, 3],
    )
}

// A base that is refused, and a session that goes on.
struct Sessions;

impl Check for Sessions {
    fn run<L: Ledger, R: Abort>(rt: &R, alloc: Global, steps: &mut Steps<L>) -> Result<(), Fail> {
        let triangle = matrix_of(alloc, 3, &["110", "011", "101"])?;
        let started = Session::start(alloc, triangle, steps)?;
        assert!(rt; matches!(started, Started::No(_)));
        let base = matrix_of(alloc, 3, &["110"])?;
        match Session::start(alloc, base, steps)? {
            Started::No(_) => assert!(rt; false),
            Started::Ok(mut session) => {
                assert_goes_on(rt, &mut session, steps)?;
                assert_stands(rt, alloc, &session)?;
            }
        }
        Ok(())
    }
}

#[test]
fn a_session_goes_on_after_a_refusal(rt: HostRuntime) -> Result<(), Fail> {
    run_counted::<Sessions, HostRuntime>(&rt, rt.alloc())
}
