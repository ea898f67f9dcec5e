// Checks that count their steps, each on a counter of its own.
ghost use Rattle.std.specs.Prelude.{◌≡◌, ◌<◌};

use std::alloc::Global;
use std::process::Abort;
use std::test::Fail;
use step_count::{Blank, Brand, Ledger, Steps};

/// A check that is given a counter.
pub trait Check {
    fn run<L: Ledger, R: Abort>(rt: &R, alloc: Global, steps: &mut Steps<L>) -> Result<(), Fail>;
}

fn run_blank<C: Check, L: Ledger, R: Abort>(rt: &R, alloc: Global, blank: Blank) -> Result<(), Fail>
    requires name { blank.name ≡ L.name }
    requires parts { blank.parts ≡ L.parts }
    requires some { 0 < blank.parts }
{
    let mut steps = Steps::<L>::new(blank);
    C::run(rt, alloc, &mut steps)
}

/// Runs the check on a new counter.
pub fn run_counted<C: Check, R: Abort>(rt: &R, alloc: Global) -> Result<(), Fail> {
    run_blank::<C, Brand, R>(rt, alloc, Blank::new(1))
}
