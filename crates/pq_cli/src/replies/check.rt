// What a check believes.
ghost use Rattle.pq_cli.specs.Check.{CheckLaw, ValidStatusLaw, TrueStatusLaw, SolvedLaw, AgreedLaw};

use commands::{instance_law, passed_law};
use verdict_judge::{exact_laws, true_law};
use verdict_text::one_verdict;

/// A check believes nothing untrue: where it ends with status 0, the bytes are the text of a verdict that is true of
/// the instance. It ends so exactly where they are the text of a verdict that passes each test, within the limit of
/// bytes; and of a yes, circular orders apart, exactly where it is true.
pub fn check_law()
    ensures believed { CheckLaw }
    ensures status { ValidStatusLaw }
    ensures exact { TrueStatusLaw }
{
    instance_law();
    one_verdict();
    true_law();
    exact_laws();
}

/// A check believes the program: what `solve` wrote on the bytes of a file is the text of a verdict that passes each
/// test, and a check on the same bytes finds it valid.
pub fn solved_law()
    ensures passes { SolvedLaw }
    ensures agreed { AgreedLaw }
{
    instance_law();
    passed_law();
    one_verdict();
}
