// What is read of the file of an instance.
ghost use Rattle.command_input.specs.Instances.{InstanceLaw, LongLaw, OnlyGraphLaw};
ghost use Rattle.command_input.specs.InstancePieces.{HeldLaw};

use graph_read::edge_laws;
use matrix_read::limits_law;

/// Each instance in the bytes of a file is within the limits of files.
pub fn instance_law()
    ensures { InstanceLaw }
{
    limits_law();
    edge_laws();
}

/// Each instance that is read of the bytes of a file is of the kind, within the limits of files.
pub fn held_law()
    ensures { HeldLaw }
{
    instance_law();
}

/// Bytes past the limit are refused, whatever the kind.
pub fn long_law()
    ensures { LongLaw }
{
    matrix_read::refusal_laws();
    graph_read::refusal_laws();
}

/// An instance of the kind `proper` is a graph.
pub fn graph_law()
    ensures { OnlyGraphLaw }
{}
