// What holds of the text of a verdict on an instance, and of that of a core.
ghost use Rattle.verdict_replies.specs.Cores.{CoreGrammarLaw};
ghost use Rattle.verdict_replies.specs.Verdicts.{GrammarLaw, LengthLaw, ShownOrderLaw};

use clone_map::place_laws;
use instance_model::derived_sizes_law;
use odd_cycle::cycle_length_law;

/// A verdict of an instance is in the grammar, and its text has no more bytes than a verdict that is judged.
pub fn grammar_law()
    ensures grammar { GrammarLaw }
    ensures length { LengthLaw }
{
    derived_sizes_law();
    cycle_length_law();
    place_laws();
}

/// What is told of a core of a matrix within the limits of files is in the grammar, and its text has no more bytes than
/// one that is judged.
pub fn core_grammar_law()
    ensures { CoreGrammarLaw }
{
    cycle_length_law();
}

/// The order of a side that shows all valid orders of a matrix is one of them.
pub fn shown_law()
    ensures { ShownOrderLaw }
{}
