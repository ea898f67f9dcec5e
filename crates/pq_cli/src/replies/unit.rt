// What a reply to `unit` says.
ghost use Rattle.pq_cli.specs.Units.{UnitStatusLaw, PrintedUnitLaw, NoUnitLaw};

use crate::replies::solve::reply_law;
use commands::instance_law;

/// The status of a reply to `unit` is 0 exactly where the graph has a unit model, and then the text is one (Roberts,
/// 1969). On status 1 it is a reply of `solve proper`.
pub fn unit_reply_law()
    ensures status { UnitStatusLaw }
    ensures model { PrintedUnitLaw }
    ensures none { NoUnitLaw }
{
    instance_law();
    reply_law();
    unit_model::unit_law();
}
