// What a reply to `solve` says.
ghost use Rattle.pq_cli.specs.Solve.{NoStatusLaw, YesStatusLaw, OrdersLaw, CycleLaw, InGrammarLaw, NoModelStatusLaw, PrintedModelLaw};

use commands::{grammar_law, instance_law, passed_law, shown_law};
use instance_model::textbook_law;
use row_judge::last_row_laws;

/// The status of a reply tells whether the instance has a textbook order on each side: 0 exactly where it has, 1
/// exactly where it has not. On 0 the text tells all of them, as the frontiers of a tree for each side; of a circular
/// instance up to rotation. On 1 it tells an odd cycle of a side, by the rows up to the first that leaves no valid
/// order with those before it, and this row is a reason of it. Each verdict that is told is one of the grammar.
pub fn reply_law()
    ensures no { NoStatusLaw }
    ensures yes { YesStatusLaw }
    ensures orders { OrdersLaw }
    ensures cycle { CycleLaw }
    ensures grammar { InGrammarLaw }
{
    grammar_law();
    instance_law();
    last_row_laws();
    shown_law();
    textbook_law();
}

/// The status of a reply on a graph tells whether the graph has a proper model: 1 exactly where it has none, and on 0
/// the text tells one (Roberts, 1969).
pub fn model_law()
    ensures no { NoModelStatusLaw }
    ensures model { PrintedModelLaw }
{
    grammar_law();
    instance_law();
    shown_law();
    textbook_law();
    proper_interval::model_law();
    passed_law();
}
