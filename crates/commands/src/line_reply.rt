// The reply of a check.
ghost use Rattle.std.specs.Prelude.{◌≡◌, string_bytes};

use crate::Reply;

/// The reply that is one line, with its status.
pub(crate) fn line_reply(status: u8, line: String) -> Reply
    ensures status { result.status ≡ status }
    ensures text { result.text.items ≡ string_bytes line }
{
    Reply {
        status,
        text: line.into_bytes(),
    }
}
