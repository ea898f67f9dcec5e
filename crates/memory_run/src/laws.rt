// What is known of the runs over two files in memory.
ghost use Rattle.memory_run.specs.Agreed.{AgreedInMemoryLaw};
ghost use Rattle.memory_run.specs.Complete.{CompleteInMemoryLaw};

use pq_cli::solved_law;

/// A check believes the library: what `solve` gave for a file is found valid beside the same file, unless there is too
/// little room for the answer or memory is refused.
pub fn agreed_law()
    ensures { AgreedInMemoryLaw }
{
    solved_law();
}

/// Files that are handed over are told as refused where one is, and otherwise answered, unless the reply has too little
/// room or memory is refused.
pub fn complete_law()
    ensures { CompleteInMemoryLaw }
{}
