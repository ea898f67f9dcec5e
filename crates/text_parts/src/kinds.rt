// The words of the kinds, both ways.
ghost use Rattle.std.specs.Prelude.{◌≡◌, option_map};
ghost use Rattle.plain_text.specs.Rest.{with_rest};
ghost use Rattle.text_parts.specs.Reading.{kind_from, kind_at};
ghost use Rattle.text_parts.specs.Seen.{Gives};
ghost use Rattle.text_parts.specs.Text.{kind_word};

use crate::stop::Stop;
use plain_text::after_word;
use row_model::Kind;

// The kinds, in the order in which their words are tried.
const KINDS: [Kind; 9] = [
    Kind::Matrix,
    Kind::Rows,
    Kind::Table,
    Kind::Circular,
    Kind::Convex,
    Kind::Doubly,
    Kind::Proper,
    Kind::Robinson,
    Kind::Clones,
];

/// The word of a kind.
pub fn word_of(kind: Kind) -> &'static [u8]
    ensures { result.now ≡ kind_word kind }
{
    match kind {
        Kind::Matrix => b"matrix",
        Kind::Rows => b"rows",
        Kind::Table => b"table",
        Kind::Circular => b"circular",
        Kind::Convex => b"convex",
        Kind::Doubly => b"doubly",
        Kind::Proper => b"proper",
        Kind::Robinson => b"robinson",
        Kind::Clones => b"clones",
    }
}

/// Reads the word of a kind at the front of the bytes.
///
/// # Errors
///
/// [`Stop::Outside`] where no kind's word stands there.
#[tactic(auto, unfolding(crate::specs::Reading::kind_at))]
pub fn read_kind(bytes: &[u8]) -> Result<(Kind, &[u8]), Stop>
    ensures { Gives with_rest result (kind_at bytes.now) }
{
    match kind_among(bytes, &KINDS) {
        None => Err(Stop::Outside),
        Some(x) => Ok(x),
    }
}

// The first of some kinds whose word stands at the front.
fn kind_among<'a>(bytes: &'a [u8], kinds: &[Kind]) -> Option<(Kind, &'a [u8])>
    ensures { option_map with_rest result ≡ kind_from kinds.now bytes.now }
{
    for kind in kinds {
        if let Some(rest) = after_word(bytes, word_of(*kind)) {
            return Some((*kind, rest));
        }
    }
    None
}
