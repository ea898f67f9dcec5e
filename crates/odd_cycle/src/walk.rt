// Closed walks of odd length.
ghost use Rattle.std.specs.Prelude.{◌≡◌, length};
ghost use Rattle.row_model.specs.Cycles.{IsOdd};

use row_model::Line;
use std::marker::Model;

/// An odd number of lines. Those that a search answers are a closed walk in the incompatibility graph of the rows
/// that were searched: the reason of each line joins its pair to the pair of the next line, and the reason of the
/// last line to the pair of the first.
#[derive(Drop)]
pub struct Walk {
    lines: Vec<Line>,
}

impl Model for Walk {
    ghost use Rattle.std.specs.Prelude.{List, length};
    ghost use Rattle.row_model.specs.declared.graph.Line.{Line};
    ghost use Rattle.row_model.specs.Cycles.{IsOdd};

    ghost Value = { List Line };

    ghost view = { λ walk. walk.lines.items };

    ghost invariant = { λ walk. IsOdd (length walk.lines.items) };
}

impl Walk {
    /// A walk of these lines.
    pub fn from_lines(lines: Vec<Line>) -> Self
        requires { IsOdd (length lines.items) }
        ensures { result ≡ lines.items }
    {
        Walk { lines }
    }

    /// The lines in their order.
    pub fn lines(&self) -> &[Line]
        ensures lines { result.now ≡ self.now }
        ensures odd { IsOdd (length result.now) }
    {
        &self.lines
    }
}
