// The file of an instance.
ghost use Rattle.std.specs.Prelude.{◌≡◌, ◌≤◌, ℕ, List, length};
ghost use Rattle.row_model.specs.declared.TheConstants.{MAX_FILE_BYTES};
ghost use Rattle.instance_model.specs.Value.{instance_value};
ghost use Rattle.command_input.specs.Instances.{ReadsInstance, HoldsInstance, instance_of, map_read};
ghost use Rattle.command_input.specs.InstancePieces.{instance_with};
ghost use Rattle.pq_cli.specs.Reading.{ReadsFile};

use crate::NoMemory;
use crate::input::{FileForm, pass_bytes, read_file, too_long, value_of};
use crate::stop::Stop;
use command_input::{InstanceReader, held_law};
use commands::{instance_in, long_law};
use file_io::{Shelf, Taker};
use instance_model::Instance;
use row_model::{Kind, MAX_FILE_BYTES, Read};
use std::alloc::Global;

/// The instance of a kind in the file of this name, which is the first of the command.
///
/// # Errors
///
/// The file is refused or can't be read, or memory is refused.
pub fn read_instance<F: Shelf>(
    alloc: Global,
    kind: Kind,
    name: &str,
    files: &mut F,
) -> Result<Instance, Stop>
    ensures { ReadsFile F.content F.taken F.faults files.old files.new name.now 1
        (ReadsInstance kind) (HoldsInstance kind) result }
{
    match InstanceReader::new(kind) {
        None => read_file(alloc, &InstanceFile { kind }, 1, name, files),
        Some(reader) => read_pieces(alloc, kind, reader, name, files),
    }
}

// The same by a reader of pieces, which keeps no more of the file than a window.
fn read_pieces<F: Shelf>(
    alloc: Global,
    kind: Kind,
    reader: InstanceReader,
    name: &str,
    files: &mut F,
) -> Result<Instance, Stop>
    requires { (bytes : List ℕ) → length bytes ≤ MAX_FILE_BYTES
        → instance_with reader bytes ≡ instance_of kind bytes }
    ensures { ReadsFile F.content F.taken F.faults files.old files.new name.now 1
        (ReadsInstance kind) (HoldsInstance kind) result }
{
    let made = pass_bytes(
        alloc,
        name,
        MAX_FILE_BYTES,
        InstancePieces { reader },
        files,
    )?;
    held_law();
    long_law();
    value_of(1, made.unwrap_or(Read::Refused(too_long())))
}

// A reader of an instance as what takes the bytes of its file.
#[derive(Drop)]
struct InstancePieces {
    reader: InstanceReader,
}

impl Taker for InstancePieces {
    type Made = Read<Instance>;

    ghost makes = { λ pieces text made. map_read instance_value made ≡ instance_with pieces.reader text };

    fn take(self, alloc: Global, text: &[u8]) -> Result<(Self, usize), NoMemory> {
        let (reader, taken) = self.reader.take(alloc, text)?;
        Ok((InstancePieces { reader }, taken))
    }

    fn finish(self, alloc: Global, text: &[u8]) -> Result<Read<Instance>, NoMemory> {
        self.reader.finish(alloc, text)
    }
}

// The file of an instance of a kind, read whole.
#[derive(Clone, Copy)]
struct InstanceFile {
    kind: Kind,
}

impl FileForm for InstanceFile {
    type Value = Instance;

    ghost reads = { λ file. ReadsInstance file.kind };

    ghost holds = { λ file. HoldsInstance file.kind };

    fn read(&self, alloc: Global, bytes: &[u8]) -> Result<Read<Instance>, NoMemory> {
        instance_in(alloc, self.kind, bytes)
    }

    fn long_law(&self) {
        long_law();
    }
}
