// What takes the bytes of a file in pieces.
ghost use Rattle.std.specs.Prelude.{◌≤◌, List, ℕ, ◌++◌, drop, length, IfOk};

use crate::NoMemory;
use std::alloc::Global;

/// What takes a text in pieces, and makes something of the whole.
pub trait Taker: Drop {
    /// What it makes.
    type Made: Drop;

    /// It makes this, where these bytes are left of the text.
    ghost makes: { Self → List ℕ → Self.Made → Type 0 };

    /// Takes some bytes, or none, at the front of what is left of the text, and tells how many. `text` is some of what
    /// is left.
    ///
    /// # Errors
    ///
    /// Memory is refused.
    fn take(self, alloc: Global, text: &[u8]) -> Result<(Self, usize), NoMemory>
        ensures within { IfOk result (λ taken. taken.1 ≤ length text.now) }
        ensures makes { IfOk result (λ taken. (rest : List ℕ) (made : Self.Made)
            → makes taken.0 (drop taken.1 text.now ++ rest) made → makes self (text.now ++ rest) made) };

    /// What it makes, where `text` is all that is left.
    ///
    /// # Errors
    ///
    /// Memory is refused.
    fn finish(self, alloc: Global, text: &[u8]) -> Result<Self::Made, NoMemory>
        ensures { IfOk result (makes self text.now) };
}
