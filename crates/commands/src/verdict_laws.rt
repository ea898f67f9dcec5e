// What a check finds of the verdict that `solve` tells.
ghost use Rattle.commands.specs.Passed.{AddedLaw, PassedLaw, TiedSideLaw};

use instance_model::textbook_law;
use tree_theory::exact_law;
use verdict_judge::solved_laws;
use verdict_replies::{grammar_law, shown_law};

/// A verdict of an instance passes each test of a check: its trees are tied to the derived rows, and what it adds to the
/// order of the first side is true.
pub fn passed_law()
    ensures passed { PassedLaw }
    ensures added { AddedLaw }
    ensures tied { TiedSideLaw }
{
    exact_law();
    textbook_law();
    proper_interval::model_law();
    solved_laws();
    grammar_law();
    shown_law();
}
