// What is written for a caller, until it is handed over.
ghost use Rattle.std.specs.Prelude.{◌≡◌, [], Some, IfOk};

use pq_io::{Failed, NoMemory, Sink};
use std::alloc::Global;
use std::marker::Model;

/// A sink that keeps all bytes. A write fails where memory is refused.
#[derive(Drop)]
pub struct Kept {
    bytes: Vec<u8>,
    faults: u64,
}

impl Model for Kept {
    ghost use Rattle.memory_run.specs.Kept.{Bytes};

    ghost Value = { Bytes };

    ghost view = { λ kept. record { bytes = kept.bytes.items; faults = kept.faults } };
}

impl Kept {
    /// A sink without bytes, of which no write has failed.
    pub fn new(alloc: Global) -> Self
        ensures { result ≡ record { bytes = []; faults = 0 } }
    {
        Kept {
            bytes: Vec::new(alloc),
            faults: 0,
        }
    }

    /// The bytes written.
    ///
    /// # Errors
    ///
    /// `NoMemory` where a write failed.
    pub fn whole(self) -> Result<Vec<u8>, NoMemory>
        ensures { IfOk result (λ bytes. (bytes.items ≡ self.bytes) × (self.faults ≡ 0)) }
    {
        if self.faults > 0 {
            return Err(NoMemory);
        }
        Ok(self.bytes)
    }
}

impl Sink for Kept {
    ghost written = { λ kept. Some kept.bytes };

    ghost faults = { λ kept. kept.faults };

    fn write(&mut self, piece: &[u8]) -> Result<usize, Failed> {
        if self.bytes.extend_from_slice(piece).is_err() {
            self.faults = self.faults.saturating_add(1);
            return Err(Failed);
        }
        Ok(piece.len())
    }
}
