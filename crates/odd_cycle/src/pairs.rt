// Pairs whose columns are exchanged.
ghost use Rattle.std.specs.Prelude.{◌≡◌};
ghost use Rattle.row_model.specs.Graph.{turned};
ghost use Rattle.odd_cycle.specs.Short.{lesser_first, turned_if};

use row_model::Pair;

/// The pair with its columns exchanged.
pub fn turned(v: Pair) -> Pair
    ensures { result ≡ turned v }
{
    Pair { a: v.b, b: v.a }
}

/// The pair, or the pair with its columns exchanged.
pub fn turned_if(v: Pair, exchanged: bool) -> Pair
    ensures { result ≡ turned_if exchanged v }
{
    if exchanged { turned(v) } else { v }
}

/// The pair with its lesser column first.
pub fn lesser_first(v: Pair) -> Pair
    ensures { result ≡ lesser_first v }
{
    if v.b < v.a { turned(v) } else { v }
}
