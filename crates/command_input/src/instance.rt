// The instance in the bytes of a file.
ghost use Rattle.std.specs.Prelude.{◌≡◌, IfOk, IsOkAnd};
ghost use Rattle.instance_model.specs.Instance.{plain, IsPlainKind};
ghost use Rattle.instance_model.specs.Value.{instance_value};
ghost use Rattle.command_input.specs.Instances.{instance_of, map_read, AreRead, IfRead, IsInstanceOf};

use crate::NoMemory;
use crate::instance_laws::instance_law;
use graph_read::{read_bigraph, read_distances, read_graph};
use instance_model::Instance;
use matrix_read::{read_clones, read_dense, read_rows, read_table};
use row_model::{Kind, MAX_COLUMNS, MAX_ROWS, Matrix, Read};
use std::alloc::Global;

/// The instance of a kind in the bytes of a file, or their first refusal.
///
/// # Errors
///
/// `NoMemory`.
pub fn instance_in(alloc: Global, kind: Kind, bytes: &[u8]) -> Result<Read<Instance>, NoMemory>
    ensures value { IfOk result (λ made.
        map_read instance_value made ≡ instance_of kind bytes.now) }
    ensures within { IfOk result (λ made. IfRead made (IsInstanceOf kind)) }
{
    instance_law();
    parsed(alloc, kind, bytes)
}

// The same, by the reader of the kind.
fn parsed(alloc: Global, kind: Kind, bytes: &[u8]) -> Result<Read<Instance>, NoMemory>
    ensures { IfOk result (λ made. map_read instance_value made ≡ instance_of kind bytes.now) }
{
    match kind {
        Kind::Circular => map_read(read_dense(alloc, bytes), Instance::Circular),
        Kind::Convex => map_read(read_bigraph(alloc, bytes, MAX_ROWS), Instance::Convex),
        Kind::Doubly => map_read(read_bigraph(alloc, bytes, MAX_COLUMNS), Instance::Doubly),
        Kind::Proper => map_read(read_graph(alloc, bytes), Instance::Proper),
        Kind::Robinson => map_read(read_distances(alloc, bytes), Instance::Robinson),
        _ => map_read(matrix_in(alloc, kind, bytes), |m| Instance::Plain(kind, m)),
    }
}

/// The instance of what was read, the refusal of the file, or that of memory.
pub(crate) fn map_read<T, F: FnOnce(T) -> Instance + Drop>(
    read: Result<Read<T>, NoMemory>,
    instance: F,
) -> Result<Read<Instance>, NoMemory>
    requires { IfOk read (λ one. IfRead one (λ value. F.pre instance value)) }
    ensures { IfOk result (λ made. IsOkAnd read (λ one. AreRead (F.post instance) one made)) }
{
    match read {
        Ok(Read::Ok(value)) => Ok(Read::Ok(instance(value))),
        Ok(Read::Refused(refusal)) => Ok(Read::Refused(refusal)),
        Err(refused) => Err(refused),
    }
}

// The matrix of a kind in the bytes of a file, or their first refusal.
fn matrix_in(alloc: Global, kind: Kind, bytes: &[u8]) -> Result<Read<Matrix>, NoMemory>
    requires { IsPlainKind kind }
    ensures { IfOk result (λ read. map_read (plain kind) read ≡ instance_of kind bytes.now) }
{
    match kind {
        Kind::Matrix => read_dense(alloc, bytes),
        Kind::Rows => read_rows(alloc, bytes),
        Kind::Table => read_table(alloc, bytes),
        Kind::Clones => read_clones(alloc, bytes),
        _ => unreachable!(),
    }
}
