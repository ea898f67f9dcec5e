// Odd cycles.
ghost use Rattle.std.specs.Prelude.{◌≡◌};
ghost use Rattle.row_model.specs.Cycles.{IsSimpleOdd};

use row_model::{Line, Lines};
use std::marker::Model;

/// An odd number of lines, three or more, with no pair twice. Those that a search answers are an odd cycle in
/// the incompatibility graph of its rows: the reason of each line joins its pair to the pair of the next line, and the
/// reason of the last line to the pair of the first.
#[derive(Drop)]
pub struct Cycle {
    lines: Lines,
}

impl Model for Cycle {
    ghost use Rattle.std.specs.Prelude.{List};
    ghost use Rattle.row_model.specs.declared.graph.Line.{Line};
    ghost use Rattle.row_model.specs.Cycles.{IsSimpleOdd};

    ghost Value = { List Line };

    ghost view = { λ cycle. cycle.lines };

    ghost invariant = { λ cycle. IsSimpleOdd cycle.lines };
}

impl Cycle {
    /// A cycle of these lines.
    pub fn from_lines(lines: Vec<Line>) -> Self
        requires { IsSimpleOdd lines.items }
        ensures { result ≡ lines.items }
    {
        Cycle {
            lines: Lines::from_vec(lines),
        }
    }

    /// The lines in their order.
    pub fn lines(&self) -> &[Line]
        ensures lines { result.now ≡ self.now }
        ensures simple { IsSimpleOdd result.now }
    {
        self.lines.as_slice()
    }

    /// The lines in their order, without a copy.
    pub fn into_lines(self) -> Lines
        ensures lines { result ≡ self }
        ensures simple { IsSimpleOdd result }
    {
        self.lines
    }
}
