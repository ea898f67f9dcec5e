// What may stand in the way of a reply, and of a run.
ghost use Rattle.std.specs.Prelude.{◌≡◌};
ghost use Rattle.pq_cli.specs.Stops.{stop_status, failure_status};

use crate::NoMemory;
use row_model::Refusal;

/// What stood in the way of a reply.
#[derive(Drop)]
pub enum Stop {
    /// The file of this number, from 1, is refused.
    Refused(u8, Refusal),
    /// A file can't be read.
    ReadFault,
    /// Memory is refused.
    NoMemory,
}

impl Stop {
    /// The exit status.
    pub fn status(&self) -> u8
        ensures { result ≡ stop_status self.now }
    {
        match self {
            Stop::Refused(..) => 3,
            Stop::ReadFault => 4,
            Stop::NoMemory => 6,
        }
    }
}

impl From<NoMemory> for Stop {
    ghost use Rattle.pq_cli.specs.declared.stop.Stop.TheVariants as stop;

    ghost from_gives = { λ _ made. made ≡ stop.NoMemory };

    fn from(_: NoMemory) -> Stop {
        Stop::NoMemory
    }
}

/// Why a run ends without a whole reply.
#[derive(Drop)]
pub enum Failure {
    /// The words are outside the grammar.
    Words,
    /// Something stood in the way of the reply.
    Stopped(Stop),
    /// The reply can't be written.
    WriteFault,
}

impl Failure {
    /// The exit status.
    pub fn status(&self) -> u8
        ensures { result ≡ failure_status self.now }
    {
        match self {
            Failure::Words => 2,
            Failure::Stopped(stop) => stop.status(),
            Failure::WriteFault => 5,
        }
    }
}

impl From<Stop> for Failure {
    ghost use Rattle.pq_cli.specs.declared.stop.Failure.TheVariants as failure;

    ghost from_gives = { λ stop made. made ≡ failure.Stopped stop };

    fn from(stop: Stop) -> Failure {
        Failure::Stopped(stop)
    }
}
