// The derived matrix of a side, copied only where it has to be made.
ghost use Rattle.std.specs.Prelude.{◌≡◌, IfOk};
ghost use Rattle.instance_model.specs.Instance.{derived_matrix, IsInstance, IsSideOf};
ghost use Rattle.instance_model.specs.Value.{instance_value, matrix_of};

use crate::instance::Instance;
use row_model::{Matrix, NoMemory};
use std::alloc::Global;

/// The derived matrix of a side. A plain instance holds its own, and a bipartite graph that of its left side. Any other is
/// made.
#[derive(Drop)]
pub enum Derived<'a> {
    /// The instance holds it.
    Lent(&'a Matrix),
    /// It was made of what the instance holds.
    Made(Matrix),
}

impl<'a> Derived<'a> {
    /// The derived matrix of a side of the instance.
    ///
    /// # Errors
    ///
    /// `NoMemory` where there is no memory for the matrix.
    pub fn of(alloc: Global, instance: &'a Instance, side: u8) -> Result<Derived<'a>, NoMemory>
        requires instance { IsInstance (instance_value instance.now) }
        requires side { IsSideOf (instance_value instance.now) side }
        ensures { IfOk result (λ d. matrix_of d ≡ derived_matrix (instance_value instance.now) side) }
    {
        match instance {
            Instance::Plain(_, matrix) => Ok(Derived::Lent(matrix)),
            Instance::Convex(graph) => Ok(Derived::Lent(graph.lists())),
            Instance::Doubly(graph) if side == 1 => Ok(Derived::Lent(graph.lists())),
            _ => Ok(Derived::Made(instance.derived(alloc, side)?)),
        }
    }

    /// The matrix.
    pub fn matrix(&self) -> &Matrix
        ensures { result.now ≡ matrix_of self.now }
    {
        match self {
            Derived::Lent(matrix) => matrix,
            Derived::Made(matrix) => matrix,
        }
    }
}
