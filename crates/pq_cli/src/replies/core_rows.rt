// What `core` writes, and what `check-core` believes.
ghost use Rattle.pq_cli.specs.Core.{CoreStatusLaw, CoreWrittenLaw, NoCoreLaw, CoreBelievedLaw, CoreValidLaw, CoreAgreedLaw};

use commands::{core_grammar_law, instance_law};
use core_text::one_core;
use verdict_judge::core_laws;

/// The status of a reply to `core` is 0 exactly where the matrix has no valid order, and then the rows that are written
/// are a core of the matrix. Else it is 1, and the reply is one that `solve` gives.
pub fn core_law()
    ensures status { CoreStatusLaw }
    ensures written { CoreWrittenLaw }
    ensures none { NoCoreLaw }
{}

/// What `check-core` ends on with status 0 names a core of the matrix. It ends so exactly where the bytes are the text
/// of a core that passes each test, within the limit of bytes, and so on what `core` wrote with status 0 on the same
/// bytes.
pub fn core_judgement_law()
    ensures believed { CoreBelievedLaw }
    ensures valid { CoreValidLaw }
    ensures agreed { CoreAgreedLaw }
{
    instance_law();
    core_grammar_law();
    core_laws();
    one_core();
}
