// The records of a table, one after another.
ghost use Rattle.std.specs.Prelude.{◌≡◌, ◌∷◌, [], true, false, IfOk, OnOk};
ghost use Rattle.csv.specs.Records.{fields_of};
ghost use Rattle.matrix_read.specs.RecordsLeft.{IsPlain, records_left};

use csv::{ByteRecord, ErrorKind, Reader};
use row_model::NoMemory;

/// Reads the next record into `fields`, and says whether there was one. The error is want of memory, or that of the
/// bytes underneath, which lie in memory and give none.
pub fn next_record(reader: &mut Reader<&[u8]>, fields: &mut ByteRecord) -> Result<bool, NoMemory>
    requires { IsPlain reader.old }
    ensures plain { OnOk result (IsPlain reader.new) }
    ensures found { IfOk result (λ found. found ≡ true → records_left reader.old ≡ fields_of fields.new ∷ records_left reader.new) }
    ensures end { IfOk result (λ found. found ≡ false → records_left reader.old ≡ []) }
{
    match reader.read_byte_record(fields) {
        Ok(found) => Ok(found),
        Err(error) => match error.kind() {
            ErrorKind::OutOfMemory | ErrorKind::Io(_) => Err(NoMemory),
            _ => unreachable!(),
        },
    }
}
