// What a cycle says of the rows that it names, and a text of a core. A call stands for the clause alone.
ghost use Rattle.core_text.specs.Laws.{BlameLaw, OneCoreLaw};

/// The rows that are reasons in a closed walk of odd length have no valid order together, whatever other rows the
/// matrix has (McConnell, 2004).
pub fn blame_law()
    ensures { BlameLaw }
{}

/// No two cores have one text.
pub fn one_core()
    ensures { OneCoreLaw }
{}
