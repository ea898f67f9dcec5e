// What a check of a unit model accepts.
ghost use Rattle.pq_cli.specs.UnitChecks.{UnitCheckLaw, UnitAgreedLaw};

use unit_model::unit_text_laws;

/// A check of a unit model accepts nothing else than a unit model: it ends with status 0 exactly where the bytes are
/// the text of one of the graph, within the limit of bytes. So it accepts what `unit` wrote with status 0.
pub fn unit_check_law()
    ensures status { UnitCheckLaw }
    ensures agreed { UnitAgreedLaw }
{
    unit_text_laws();
}
