//! Orders of the columns 1 to c, and what it means that an order keeps a row (Booth and Lueker, 1976). The crate has
//! definitions, their lemmas and a bound, and no running code.
#![tactic(auto)]

ghost use Rattle.std.specs.Prelude.{◌≡◌};

/// The greatest number of columns that the types of this repository allow.
pub const COLUMN_BOUND: u32 = 32_768;

/// The value of the constant of this crate, by its numeral. A call stands for the clause alone.
pub fn values_law()
    ensures { COLUMN_BOUND ≡ 32768 }
{}
