// A unit model as a text has it.
ghost use Rattle.std.specs.Prelude.{◌≡◌, length as count_of};

use std::marker::Model;

/// A unit model as a text has it: the number of vertices, the length, and one left end for each vertex in turn.
#[derive(Drop)]
pub struct UnitText {
    vertices: u32,
    size: u64,
    lefts: Vec<u64>,
}

impl Model for UnitText {
    ghost use Rattle.std.specs.Prelude.{◌≡◌, length as count_of};
    ghost use Rattle.unit_model.specs.Text.{UnitValue};

    ghost Value = { UnitValue };

    ghost view = { λ t. record { vertices = t.vertices; size = t.size; lefts = t.lefts.items } };

    ghost invariant = { λ t. count_of t.lefts.items ≡ t.vertices };
}

impl UnitText {
    /// The model of these numbers, with one left end for each vertex.
    pub fn new(vertices: u32, length: u64, lefts: Vec<u64>) -> UnitText
        requires { count_of lefts.items ≡ vertices }
        ensures { result ≡ record { vertices = vertices; size = length; lefts = lefts.items } }
    {
        UnitText {
            vertices,
            size: length,
            lefts,
        }
    }

    /// The number of vertices.
    pub fn vertices(&self) -> u32
        ensures { result ≡ self.now.vertices }
    {
        self.vertices
    }

    /// The length of all intervals.
    pub fn length(&self) -> u64
        ensures { result ≡ self.now.size }
    {
        self.size
    }

    /// The left ends, vertex by vertex.
    pub fn lefts(&self) -> &[u64]
        ensures lefts { result.now ≡ self.now.lefts }
        ensures count { count_of result.now ≡ self.now.vertices }
    {
        &self.lefts
    }
}
