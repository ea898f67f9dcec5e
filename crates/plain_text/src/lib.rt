//! Plain numbers and words in texts, both ways.
#![tactic(auto)]

ghost use Rattle.std.specs.Prelude.{◌≡◌, ◌++◌, OnOk, OnErr};
ghost use Rattle.std.specs.Fmt.{decimal};

mod read;

use itoa::Buffer;
pub use read::{after_word, number};
pub use std::alloc::AllocError as NoMemory;

/// Appends the plain number: decimal digits without leading zeros, 0 as a single `0`.
///
/// Takes no memory but the growth of `text`. On an error `text` is as before.
pub fn push_number(text: &mut Vec<u8>, n: u64) -> Result<(), NoMemory>
    ensures ok { OnOk result (text.new.items ≡ text.old.items ++ decimal n) }
    ensures err { OnErr result (text.new.items ≡ text.old.items) }
{
    let mut buffer = Buffer::new();
    text.extend_from_slice(buffer.format(n).as_bytes())
}
