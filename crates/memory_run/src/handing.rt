// What a caller is handed, in the room that it lends.
ghost use Rattle.std.specs.Prelude.{◌≡◌, ◌≤◌, codes, drop, length, take};
ghost use Rattle.memory_run.specs.Called.{IsHandedOver, IsShown};

/// What stands in a caller's room: a status, and how many bytes of the reply and of the line there are.
#[derive(Clone, Copy)]
pub struct Left {
    /// The status.
    pub status: u8,
    /// The bytes of the reply.
    pub written: usize,
    /// The bytes of the line.
    pub told: usize,
}

/// Copies a reply and a line to the caller's room.
pub fn handed_over(status: u8, reply: &[u8], line: &[u8], out: &mut [u8], err: &mut [u8]) -> Left
    ensures lengths { (length out.new ≡ length out.old) × (length err.new ≡ length err.old) }
    ensures room { (result.written ≤ length out.new) × (result.told ≤ length err.new) }
    ensures behind { (drop result.written out.new ≡ drop result.written out.old)
        × (drop result.told err.new ≡ drop result.told err.old) }
    ensures handed { IsHandedOver (length out.new) (length err.new) status reply.now line.now
        result.status (take result.written out.new) (take result.told err.new) }
{
    if reply.len() > out.len() {
        return Left {
            status: 5,
            written: copied(&reply[..out.len()], out),
            told: shown(b"pq: write fault\n", err),
        };
    }
    Left {
        status,
        written: copied(reply, out),
        told: shown(line, err),
    }
}

// Copies bytes to the front of `room`, and says how many.
fn copied(bytes: &[u8], room: &mut [u8]) -> usize
    requires { length bytes.now ≤ length room.old }
    ensures length { length room.new ≡ length room.old }
    ensures count { result ≡ length bytes.now }
    ensures copied { take result room.new ≡ bytes.now }
    ensures behind { drop result room.new ≡ drop result room.old }
{
    room[..bytes.len()].copy_from_slice(bytes);
    bytes.len()
}

// Copies a line to the front of `room`, all of it, or nothing where there is too little room.
fn shown(line: &[u8], room: &mut [u8]) -> usize
    ensures length { length room.new ≡ length room.old }
    ensures room { result ≤ length room.new }
    ensures shown { IsShown (length room.new) line.now (take result room.new) }
    ensures behind { drop result room.new ≡ drop result room.old }
{
    if line.len() > room.len() {
        return 0;
    }
    copied(line, room)
}
