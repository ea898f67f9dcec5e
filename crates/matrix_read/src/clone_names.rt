// What a clone file names: the probes, and the probes of each clone. All else is passed over,
// and nothing is kept of it.
ghost use Rattle.std.specs.Prelude.{◌≡◌, ◌<◌, ◌≤◌, ◌-◌, true, false, length, Some, None, Err, IfOk, OnOk, OnErr, option_map};
ghost use Rattle.json.specs.Json.{parse_map};
ghost use Rattle.json.specs.Reads.{token_of};
ghost use Rattle.serde_json.specs.Data.{array, object, no_members};
ghost use Rattle.matrix_read.specs.Clones.{reading};
ghost use Rattle.matrix_read.specs.CloneSteps.{strings_of, probes_of};
ghost use Rattle.matrix_read.specs.JsonSteps.{value_at, items_at, members_at, string_in, opens_array, opens_object, IsNoArray, IsNoObject};
ghost use Rattle.matrix_read.specs.CloneNames.{array_strings, member_probes, clone_names, array_clones, file_names, member_names, with_string, names_view, clones_view, list_view, file_view, IsMember};

use crate::passing::{pass, pass_value};
use json::{Invalid, Reader, Scratch, Token};
use row_model::NoMemory;
use std::alloc::{AllocFailed, Global};

// How deep the arrays and objects of a file may nest.
const MAX_DEPTH: usize = 127;

/// What a clone file names.
pub(crate) struct CloneNames<'a> {
    /// The strings under `probes`; none where there is no array of strings.
    pub probes: Option<Vec<&'a str>>,
    /// Of each of `clones` the strings under `probes`; none where there is no array.
    pub clones: Option<Vec<Option<Vec<&'a str>>>>,
}

// By hand, so that a place where names are dropped proves one call and does not take their lists apart.
impl<'a> Drop for CloneNames<'a> {
    fn drop(self) {
        let CloneNames {
            probes: _probes,
            clones: _clones,
        } = self;
    }
}

// Why no names are read.
#[derive(Drop)]
pub(crate) enum NoNames {
    // The text has no value.
    NotJson,
    // Memory was refused.
    NoMemory,
}

impl From<Invalid> for NoNames {
    ghost use Rattle.std.specs.Prelude.{◌≡◌};
    ghost use Rattle.matrix_read.specs.declared.clone_names.NoNames.TheVariants as stop;

    ghost from_gives = { λ _ made. made ≡ stop.NotJson };

    fn from(_: Invalid) -> NoNames {
        NoNames::NotJson
    }
}

impl From<NoMemory> for NoNames {
    ghost use Rattle.std.specs.Prelude.{◌≡◌};
    ghost use Rattle.matrix_read.specs.declared.clone_names.NoNames.TheVariants as stop;

    ghost from_gives = { λ _ made. made ≡ stop.NoMemory };

    fn from(_: NoMemory) -> NoNames {
        NoNames::NoMemory
    }
}

impl<T: Drop> From<AllocFailed<T>> for NoNames {
    ghost use Rattle.std.specs.Prelude.{◌≡◌};
    ghost use Rattle.matrix_read.specs.declared.clone_names.NoNames.TheVariants as stop;

    ghost from_gives = { λ _ made. made ≡ stop.NoMemory };

    fn from(_: AllocFailed<T>) -> NoNames {
        NoNames::NoMemory
    }
}

/// What a text names; none where its bytes are no UTF-8 or have no value. Names with escapes stand in
/// `scratch`, and all others in the text.
///
/// # Errors
///
/// [`NoMemory`] where memory is refused.
pub(crate) fn names_in<'a>(
    alloc: Global,
    text: &'a [u8],
    scratch: &'a mut Scratch,
) -> Result<Option<CloneNames<'a>>, NoMemory>
    ensures { IfOk result (λ names. option_map file_view names ≡ option_map file_names (reading text.now)) }
{
    let Ok(text) = std::str::from_utf8(text) else {
        return Ok(None);
    };
    let mut reader = Reader::new(text, scratch)?;
    match read_file(alloc, &mut reader, MAX_DEPTH) {
        Err(NoNames::NoMemory) => Err(NoMemory),
        Err(NoNames::NotJson) => Ok(None),
        Ok(_) if reader.next().is_some() => Ok(None),
        Ok(names) => Ok(Some(names)),
    }
}

// What the next value names.
fn read_file<'a>(
    alloc: Global,
    reader: &mut Reader<'a>,
    depth: usize,
) -> Result<CloneNames<'a>, NoNames>
    requires { 4 ≤ depth }
    ensures ok { IfOk result (λ names. parse_map file_names (value_at depth reader.old) ≡ Some (file_view names, reader.new)) }
    ensures err { result ≡ Err NoNames.NotJson → value_at depth reader.old ≡ None }
{
    if !enters_object(reader, depth)? {
        return Ok(CloneNames {
            probes: None,
            clones: None,
        });
    }
    read_members(alloc, reader, depth - 1)
}

// What the members of an object name, up to its end. Of two equal keys the last counts.
fn read_members<'a>(
    alloc: Global,
    reader: &mut Reader<'a>,
    depth: usize,
) -> Result<CloneNames<'a>, NoNames>
    requires { 3 ≤ depth }
    ensures ok { IfOk result (λ names. parse_map member_names (members_at depth (length reader.old) no_members reader.old) ≡ Some (file_view names, reader.new)) }
    ensures err { result ≡ Err NoNames.NotJson → members_at depth (length reader.old) no_members reader.old ≡ None }
{
    let mut names = CloneNames {
        probes: None,
        clones: None,
    };
    while let Some(key) = reader.next_key()? {
        read_member(alloc, reader, depth, key, &mut names)?;
    }
    Ok(names)
}

// Reads the value of a member with this key, and keeps what it names.
fn read_member<'a>(
    alloc: Global,
    reader: &mut Reader<'a>,
    depth: usize,
    key: &str,
    names: &mut CloneNames<'a>,
) -> Result<(), NoNames>
    requires { 3 ≤ depth }
    ensures ok { OnOk result (IsMember member_names depth key.now reader.old reader.new (file_view names.old) (file_view names.new)) }
    ensures shorter { OnOk result (length reader.new < length reader.old) }
    ensures err { result ≡ Err NoNames.NotJson → value_at depth reader.old ≡ None }
{
    if key == "clones" {
        names.clones = read_clones(alloc, reader, depth)?;
        return Ok(());
    }
    read_probes_at(alloc, reader, depth, key, &mut names.probes)
}

// Reads the value of a member with this key. That under `probes` is kept, and any other is passed over.
fn read_probes_at<'a>(
    alloc: Global,
    reader: &mut Reader<'a>,
    depth: usize,
    key: &str,
    probes: &mut Option<Vec<&'a str>>,
) -> Result<(), NoNames>
    requires { 1 ≤ depth }
    ensures ok { OnOk result (IsMember member_probes depth key.now reader.old reader.new (names_view probes.old) (names_view probes.new)) }
    ensures shorter { OnOk result (length reader.new < length reader.old) }
    ensures err { result ≡ Err NoNames.NotJson → value_at depth reader.old ≡ None }
{
    if key == "probes" {
        *probes = read_names(alloc, reader, depth)?;
        return Ok(());
    }
    pass(reader, depth)?;
    Ok(())
}

// The probes of each clone, where the next value is an array.
fn read_clones<'a>(
    alloc: Global,
    reader: &mut Reader<'a>,
    depth: usize,
) -> Result<Option<Vec<Option<Vec<&'a str>>>>, NoNames>
    requires { 3 ≤ depth }
    ensures ok { IfOk result (λ clones. parse_map array_clones (value_at depth reader.old) ≡ Some (list_view clones, reader.new)) }
    ensures shorter { OnOk result (length reader.new < length reader.old) }
    ensures err { result ≡ Err NoNames.NotJson → value_at depth reader.old ≡ None }
{
    if !enters_array(reader, depth)? {
        return Ok(None);
    }
    let clones = read_clone_items(alloc, reader, depth - 1)?;
    Ok(Some(clones))
}

// The probes of each item of an array, up to its end.
fn read_clone_items<'a>(
    alloc: Global,
    reader: &mut Reader<'a>,
    depth: usize,
) -> Result<Vec<Option<Vec<&'a str>>>, NoNames>
    requires { 2 ≤ depth }
    ensures ok { IfOk result (λ clones. parse_map clone_names (items_at depth (length reader.old) reader.old) ≡ Some (clones_view clones.items, reader.new)) }
    ensures shorter { OnOk result (length reader.new < length reader.old) }
    ensures err { result ≡ Err NoNames.NotJson → items_at depth (length reader.old) reader.old ≡ None }
{
    let mut clones = Vec::new(alloc);
    while !reader.take_end_array() {
        let clone = read_clone(alloc, reader, depth)?;
        clones.push(clone)?;
    }
    Ok(clones)
}

// The probes of the next value, if it is an object with an array of strings under `probes`.
fn read_clone<'a>(
    alloc: Global,
    reader: &mut Reader<'a>,
    depth: usize,
) -> Result<Option<Vec<&'a str>>, NoNames>
    requires { 2 ≤ depth }
    ensures ok { IfOk result (λ names. parse_map probes_of (value_at depth reader.old) ≡ Some (names_view names, reader.new)) }
    ensures shorter { OnOk result (length reader.new < length reader.old) }
    ensures err { result ≡ Err NoNames.NotJson → value_at depth reader.old ≡ None }
{
    if !enters_object(reader, depth)? {
        return Ok(None);
    }
    read_probes(alloc, reader, depth - 1)
}

// The strings under `probes` among the members of an object, up to its end. Of two equal keys the last counts.
fn read_probes<'a>(
    alloc: Global,
    reader: &mut Reader<'a>,
    depth: usize,
) -> Result<Option<Vec<&'a str>>, NoNames>
    requires { 1 ≤ depth }
    ensures ok { IfOk result (λ names. parse_map member_probes (members_at depth (length reader.old) no_members reader.old) ≡ Some (names_view names, reader.new)) }
    ensures shorter { OnOk result (length reader.new < length reader.old) }
    ensures err { result ≡ Err NoNames.NotJson → members_at depth (length reader.old) no_members reader.old ≡ None }
{
    let mut probes = None;
    while let Some(key) = reader.next_key()? {
        read_probes_at(alloc, reader, depth, key, &mut probes)?;
    }
    Ok(probes)
}

// The strings of the next value, if it is an array of strings.
fn read_names<'a>(
    alloc: Global,
    reader: &mut Reader<'a>,
    depth: usize,
) -> Result<Option<Vec<&'a str>>, NoNames>
    requires { 1 ≤ depth }
    ensures ok { IfOk result (λ names. parse_map array_strings (value_at depth reader.old) ≡ Some (names_view names, reader.new)) }
    ensures shorter { OnOk result (length reader.new < length reader.old) }
    ensures err { result ≡ Err NoNames.NotJson → value_at depth reader.old ≡ None }
{
    if !enters_array(reader, depth)? {
        return Ok(None);
    }
    read_strings(alloc, reader, depth - 1)
}

// The items of an array up to its end, if all of them are strings.
fn read_strings<'a>(
    alloc: Global,
    reader: &mut Reader<'a>,
    depth: usize,
) -> Result<Option<Vec<&'a str>>, NoNames>
    ensures ok { IfOk result (λ names. parse_map strings_of (items_at depth (length reader.old) reader.old) ≡ Some (names_view names, reader.new)) }
    ensures shorter { OnOk result (length reader.new < length reader.old) }
    ensures err { result ≡ Err NoNames.NotJson → items_at depth (length reader.old) reader.old ≡ None }
{
    let mut names = Some(Vec::new(alloc));
    while !reader.take_end_array() {
        let token = reader.next().ok_or(Invalid)?;
        pass_value(token, reader, depth)?;
        names = with_string(names, string_in(token))?;
    }
    Ok(names)
}

// Adds a string to names. Where there is none, no names are left.
fn with_string<'a>(
    names: Option<Vec<&'a str>>,
    string: Option<&'a str>,
) -> Result<Option<Vec<&'a str>>, NoMemory>
    ensures { IfOk result (λ added. names_view added ≡ with_string (names_view names.entry) (option_map (λ text. text.now) string.entry)) }
{
    let Some(mut list) = names else {
        return Ok(None);
    };
    let Some(text) = string else {
        return Ok(None);
    };
    list.push(text)?;
    Ok(Some(list))
}

// The string that a token is.
fn string_in<'a>(token: Token<'a>) -> Option<&'a str>
    ensures { option_map (λ text. text.now) result ≡ string_in (token_of token.entry) }
{
    match token {
        Token::String(text) => Some(text),
        _ => None,
    }
}

// Takes the token that begins an array, if the next value is one; any other value is passed over.
fn enters_array(reader: &mut Reader<'_>, depth: usize) -> Result<bool, Invalid>
    requires { 1 ≤ depth }
    ensures entered { IfOk result (λ yes. yes ≡ true → value_at depth reader.old ≡ parse_map array (items_at (depth - 1) (length reader.new) reader.new)) }
    ensures passed { IfOk result (λ yes. yes ≡ false → IsNoArray depth reader.old reader.new) }
    ensures shorter { OnOk result (length reader.new < length reader.old) }
    ensures err { OnErr result (value_at depth reader.old ≡ None) }
{
    let Some(token) = reader.next() else {
        return Err(Invalid);
    };
    if opens_array(token) {
        return Ok(true);
    }
    pass_value(token, reader, depth)?;
    Ok(false)
}

// Takes the token that begins an object, if the next value is one; any other value is passed over.
fn enters_object(reader: &mut Reader<'_>, depth: usize) -> Result<bool, Invalid>
    requires { 1 ≤ depth }
    ensures entered { IfOk result (λ yes. yes ≡ true → value_at depth reader.old ≡ parse_map object (members_at (depth - 1) (length reader.new) no_members reader.new)) }
    ensures passed { IfOk result (λ yes. yes ≡ false → IsNoObject depth reader.old reader.new) }
    ensures shorter { OnOk result (length reader.new < length reader.old) }
    ensures err { OnErr result (value_at depth reader.old ≡ None) }
{
    let Some(token) = reader.next() else {
        return Err(Invalid);
    };
    if opens_object(token) {
        return Ok(true);
    }
    pass_value(token, reader, depth)?;
    Ok(false)
}

// Whether a token begins an array.
fn opens_array(token: Token<'_>) -> bool
    ensures { result ≡ opens_array (token_of token.entry) }
{
    matches!(token, Token::BeginArray)
}

// Whether a token begins an object.
fn opens_object(token: Token<'_>) -> bool
    ensures { result ≡ opens_object (token_of token.entry) }
{
    matches!(token, Token::BeginObject)
}
