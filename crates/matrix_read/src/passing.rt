// JSON values that are passed over: they are judged token by token, and nothing is kept of them.
ghost use Rattle.std.specs.Prelude.{◌≡◌, ◌==◌, ◌<◌, ◌≤◌, ◌∷◌, length, slice_index, false, true, Some, None, OnOk, MatchResult, IsTrue, is_some};
ghost use Rattle.json.specs.Reads.{token_of};
ghost use Rattle.serde_json.specs.Data.{no_members};
ghost use Rattle.serde_json.specs.Read.{number_of, number_from, float_of};
ghost use Rattle.matrix_read.specs.JsonSteps.{value_at, items_at, members_at, behind};

use fast_float::Numeral;
use json::{Invalid, Reader, Token};

/// Passes over the next value, whose arrays and objects nest `depth` deep at most.
///
/// # Errors
///
/// [`Invalid`] exactly where there is no such value, or a number in it has no value.
#[cycle(pass)]
pub(crate) fn pass(reader: &mut Reader<'_>, depth: usize) -> Result<(), Invalid>
    ensures value { MatchResult result (λ _. behind (value_at depth reader.old) ≡ Some reader.new)
        (λ _. behind (value_at depth reader.old) ≡ None) }
    ensures shorter { OnOk result (length reader.new < length reader.old) }
{
    let token = reader.next().ok_or(Invalid)?;
    pass_value(token, reader, depth)
}

/// Passes over the value that begins with a token, which was taken before.
///
/// # Errors
///
/// [`Invalid`] exactly where there is no such value, or a number in it has no value.
#[cycle(pass)]
pub(crate) fn pass_value(
    token: Token<'_>,
    reader: &mut Reader<'_>,
    depth: usize,
) -> Result<(), Invalid>
    ensures value { MatchResult result (λ _. behind (value_at depth (token_of token.entry ∷ reader.old)) ≡ Some reader.new)
        (λ _. behind (value_at depth (token_of token.entry ∷ reader.old)) ≡ None) }
    ensures shorter { OnOk result (length reader.new ≤ length reader.old) }
{
    match token {
        Token::String(_) | Token::Bool(_) | Token::Null => Ok(()),
        Token::Number(text) => {
            if has_value(text) {
                Ok(())
            } else {
                Err(Invalid)
            }
        }
        Token::EndObject | Token::EndArray | Token::Key(_) | Token::Bad => Err(Invalid),
        Token::BeginArray => {
            if depth == 0 {
                return Err(Invalid);
            }
            pass_items(reader, depth - 1)
        }
        Token::BeginObject => {
            if depth == 0 {
                return Err(Invalid);
            }
            pass_members(reader, depth - 1)
        }
    }
}

// Passes over the items of an array and its end.
#[cycle(pass)]
fn pass_items(reader: &mut Reader<'_>, depth: usize) -> Result<(), Invalid>
    ensures value { MatchResult result (λ _. behind (items_at depth (length reader.old) reader.old) ≡ Some reader.new)
        (λ _. behind (items_at depth (length reader.old) reader.old) ≡ None) }
    ensures shorter { OnOk result (length reader.new < length reader.old) }
{
    while !reader.take_end_array() {
        pass(reader, depth)?;
    }
    Ok(())
}

// Passes over the members of an object and its end.
#[cycle(pass)]
fn pass_members(reader: &mut Reader<'_>, depth: usize) -> Result<(), Invalid>
    ensures value { MatchResult result (λ _. behind (members_at depth (length reader.old) no_members reader.old) ≡ Some reader.new)
        (λ _. behind (members_at depth (length reader.old) no_members reader.old) ≡ None) }
    ensures shorter { OnOk result (length reader.new < length reader.old) }
{
    while let Some(_) = reader.next_key()? {
        pass(reader, depth)?;
    }
    Ok(())
}

// Whether the text of a number has a value. One that is too large for a float has none.
fn has_value(number: &str) -> bool
    ensures { result ≡ is_some (number_of number.now) }
{
    let bytes = number.as_bytes();
    if has_minus(bytes) {
        has_negative(&Numeral::scan(&bytes[1..]))
    } else {
        has_unsigned(&Numeral::scan(bytes))
    }
}

// Whether bytes begin with a minus.
fn has_minus(bytes: &[u8]) -> bool
    ensures value { result ≡ (slice_index bytes.now 0 == 45) }
    ensures some { IsTrue result → 0 < length bytes.now }
{
    !bytes.is_empty() && bytes[0] == b'-'
}

// Whether a numeral has a value without a sign.
fn has_unsigned(numeral: &Numeral<'_>) -> bool
    ensures { result ≡ is_some (number_from false numeral.now) }
{
    numeral.to_u64().is_some() || is_finite(false, numeral)
}

// Whether a numeral has a value behind a minus.
fn has_negative(numeral: &Numeral<'_>) -> bool
    ensures { result ≡ is_some (number_from true numeral.now) }
{
    if let Some(n) = numeral.to_i64(true) {
        if n < 0 {
            return true;
        }
    }
    is_finite(true, numeral)
}

// Whether the float that is nearest to a numeral is finite.
fn is_finite(negative: bool, numeral: &Numeral<'_>) -> bool
    ensures { result ≡ is_some (float_of negative numeral.now) }
{
    numeral.to_float::<f64>(negative).is_finite()
}
