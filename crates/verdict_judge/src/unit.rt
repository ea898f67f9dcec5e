// What is said of a unit model.
ghost use Rattle.std.specs.Prelude.{◌≡◌, ◌≢◌, ◌↔◌};
ghost use Rattle.unit_model.specs.Models.{IsUnitModel};

use graph_model::Graph;
use unit_model::{UnitText, unit_fits};

/// What comes of judging a unit model.
#[derive(Clone, Copy, Debug, PartialEq, Eq)]
pub enum UnitChecked {
    /// It is a unit model of the graph.
    Valid,
    /// It has another number of vertices than the graph.
    Vertices,
    /// Its length and its left ends are no unit model of the graph.
    Model,
}

/// Judges a unit model of a graph: `Vertices` exactly where the numbers of vertices differ, else `Valid` exactly where
/// the length and the left ends are a unit model of the graph, and `Model` where they are not. It takes no memory.
pub fn check_unit(g: &Graph, t: &UnitText) -> UnitChecked
    ensures vertices { (result ≡ UnitChecked.Vertices) ↔ (t.now.vertices ≢ g.now.vertices) }
    ensures valid { (result ≡ UnitChecked.Valid) ↔
        ((t.now.vertices ≡ g.now.vertices) × IsUnitModel g.now t.now.size t.now.lefts) }
    ensures model { (result ≡ UnitChecked.Model) ↔
        ((t.now.vertices ≡ g.now.vertices) × (IsUnitModel g.now t.now.size t.now.lefts → ⊥)) }
{
    if t.vertices() != g.vertices() {
        return UnitChecked::Vertices;
    }
    if unit_fits(g, t.lefts(), t.length()) {
        UnitChecked::Valid
    } else {
        UnitChecked::Model
    }
}
