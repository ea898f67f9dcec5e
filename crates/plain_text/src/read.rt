// Numbers and words at the front of bytes.
ghost use Rattle.std.specs.Prelude.{◌≡◌, ◌≢◌, ◌≤◌, ◌<◌, ◌++◌, ℕ, List, IfSome, IfNone, option_map};
ghost use Rattle.std.specs.Fmt.{decimal};
ghost use Rattle.plain_text.specs.Numbers.{number_at, digits_on, NoDigitFirst};
ghost use Rattle.plain_text.specs.Rest.{with_rest, rest_of};
ghost use Rattle.plain_text.specs.Words.{word_at};

/// The plain number at the front of bytes, and the bytes after it; none where no plain number stands there, or
/// where it is above the limit.
///
/// A plain number has decimal digits without leading zeros; 0 is a single `0`. So after a `0` the
/// digits that follow are left.
pub fn number(bytes: &[u8], limit: u64) -> Option<(u64, &[u8])>
    ensures value { option_map with_rest result ≡ number_at limit bytes.now }
    ensures within { IfSome result (λ x. x.0 ≤ limit) }
    ensures found { IfSome result (λ x. bytes.now ≡ decimal x.0 ++ x.1.now) }
    ensures none { IfNone result ((n : ℕ) (rest : List ℕ) → n ≤ limit → NoDigitFirst rest → bytes.now ≢ decimal n ++ rest) }
{
    first_number(bytes, limit)
}

// The number that the bytes begin with, and what follows it.
#[tactic(auto, unfolding(crate::specs::Numbers::number_at))]
fn first_number(bytes: &[u8], limit: u64) -> Option<(u64, &[u8])>
    ensures value { option_map with_rest result ≡ number_at limit bytes.now }
    ensures within { IfSome result (λ x. x.0 ≤ limit) }
{
    let (first, rest) = bytes.split_first()?;
    if *first == b'0' {
        return Some((0, rest));
    }
    if !first.is_ascii_digit() {
        return None;
    }
    let start = u64::from(*first - b'0');
    if start > limit {
        return None;
    }
    digits_after(start, rest, limit)
}

// The number that digits at the front go on with, and the bytes after them.
fn digits_after(start: u64, bytes: &[u8], limit: u64) -> Option<(u64, &[u8])>
    requires { start ≤ limit }
    ensures value { option_map with_rest result ≡ digits_on limit start bytes.now }
    ensures within { IfSome result (λ x. x.0 ≤ limit) }
{
    let mut n = start;
    for (i, byte) in bytes.iter().enumerate() {
        if !byte.is_ascii_digit() {
            return Some((n, &bytes[i..]));
        }
        let digit = u64::from(*byte - b'0');
        if digit > limit || n > (limit - digit) / 10 {
            return None;
        }
        n = n * 10 + digit;
    }
    Some((n, &[]))
}

/// The bytes after a word at the front of bytes; none where the word does not stand there.
#[tactic(auto, unfolding(crate::specs::Words::word_at))]
pub fn after_word<'a>(bytes: &'a [u8], word: &[u8]) -> Option<&'a [u8]>
    ensures value { option_map rest_of result ≡ word_at word.now bytes.now }
    ensures found { IfSome result (λ rest. bytes.now ≡ word.now ++ rest.now) }
    ensures none { IfNone result ((rest : List ℕ) → bytes.now ≢ word.now ++ rest) }
{
    bytes.strip_prefix(word)
}
