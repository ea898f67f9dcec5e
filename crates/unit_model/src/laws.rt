// Unit models and umbrella orders. A call stands for the clauses alone.
ghost use Rattle.unit_model.specs.Laws.{UnitLaw, OneRuleLaw, OneUnitLaw, TextLengthLaw};

use proper_interval::model_law;

/// A graph that has a unit model has an umbrella order (Roberts, 1969).
pub fn unit_law()
    ensures { UnitLaw }
{
    model_law();
}

/// An umbrella order gives one list of left ends.
pub fn one_rule_law()
    ensures { OneRuleLaw }
{}

/// No two unit models have one text, and a text has at most 63,544 bytes.
pub fn unit_text_laws()
    ensures one { OneUnitLaw }
    ensures length { TextLengthLaw }
{}
