// The words of the command line.
ghost use Rattle.std.specs.Prelude.{◌≡◌, ◌≤◌, [], ◌∷◌, option_map, IfSome};
ghost use Rattle.command_input.specs.Words.{texts, Solve, command_of, check_of, extend_of, core_of, check_core_of, check_unit_of, numbered_command_of, gen_of, meet_of, list_of, kind_of, extended_kind_of, number_in, are_both_input, IsExtended, IsInGrammar};
ghost use Rattle.command_input.specs.Task.{command_seen, IsTaskOf};

use order_list::MAX_ORDERS;
use row_model::{Kind, MAX_COLUMNS, MAX_ROWS};
use text_lines::{Numeral, number};

/// What the words ask for.
#[derive(Clone, Copy)]
pub enum Task<'a> {
    /// `solve KIND FILE`: find the orders of an instance.
    Solve {
        /// The kind of the instance.
        kind: Kind,
        /// The name of its file.
        file: &'a str,
    },
    /// `check KIND FILE VERDICT`: judge a verdict on an instance.
    Check {
        /// The kind of the instance.
        kind: Kind,
        /// The name of its file.
        file: &'a str,
        /// The name of the file of the verdict.
        verdict: &'a str,
    },
    /// `extend KIND FILE ROWS`: take further rows after those of a matrix, as long as they leave an order.
    Extend {
        /// The kind of the matrix.
        kind: Kind,
        /// The name of its file.
        file: &'a str,
        /// The name of the file of the further rows.
        rows: &'a str,
    },
    /// `core KIND FILE`: find the rows of a matrix that are to blame.
    Core {
        /// The kind of the matrix.
        kind: Kind,
        /// The name of its file.
        file: &'a str,
    },
    /// `check-core KIND FILE CORE`: judge the text of a core of a matrix.
    CheckCore {
        /// The kind of the matrix.
        kind: Kind,
        /// The name of its file.
        file: &'a str,
        /// The name of the file of the core.
        core: &'a str,
    },
    /// `gen SEED COLUMNS ROWS`: make a matrix and sum up its tree.
    Gen {
        /// Where the draws begin.
        seed: u64,
        /// The number of columns, from 1 to [`MAX_COLUMNS`].
        columns: u32,
        /// The number of rows, at most [`MAX_ROWS`].
        rows: u32,
    },
    /// `meet COLUMNS TREE1 TREE2`: find the orders that two trees share.
    Meet {
        /// The number of columns, from 1 to [`MAX_COLUMNS`].
        columns: u32,
        /// The name of the file of the first tree.
        first: &'a str,
        /// The name of the file of the second tree.
        second: &'a str,
    },
    /// `list KIND FILE K`: the first valid orders of a matrix.
    ListOrders {
        /// The kind of the matrix.
        kind: Kind,
        /// The name of its file.
        file: &'a str,
        /// How many orders, from 1 to [`MAX_ORDERS`].
        count: u32,
    },
    /// `unit FILE`: find the unit model of a graph.
    UnitModel {
        /// The name of its file.
        file: &'a str,
    },
    /// `check-unit FILE UNIT`: judge a unit model on a graph.
    CheckUnit {
        /// The name of the file of the graph.
        file: &'a str,
        /// The name of the file of the unit model.
        unit: &'a str,
    },
}

/// What the words ask for, or none where they are outside the grammar. It takes no memory.
pub fn task_of(words: &[String]) -> Option<Task<'_>>
    ensures task { option_map command_seen result ≡ command_of (texts words.now) }
    ensures taken { IfSome result (λ task. IsInGrammar (command_seen task)) }
{
    match words {
        [verb, file] => two_words(verb.as_str(), file.as_str()),
        [verb, first, second] => three_words(verb.as_str(), first.as_str(), second.as_str()),
        [verb, first, second, third] => four_words(
            verb.as_str(),
            first.as_str(),
            second.as_str(),
            third.as_str(),
        ),
        _ => None,
    }
}

// What two words ask for.
fn two_words<'a>(verb: &str, file: &'a str) -> Option<Task<'a>>
    ensures { IsTaskOf result (command_of (verb.now ∷ file.now ∷ [])) }
{
    match verb {
        "unit" => Some(Task::UnitModel { file }),
        _ => None,
    }
}

// What three words ask for.
fn three_words<'a>(verb: &str, first: &'a str, second: &'a str) -> Option<Task<'a>>
    ensures { IsTaskOf result (command_of (verb.now ∷ first.now ∷ second.now ∷ [])) }
{
    match verb {
        "solve" => solve_of(first, second),
        "core" => core_of(first, second),
        "check-unit" => check_unit_of(first, second),
        _ => None,
    }
}

// `solve` with these words.
fn solve_of<'a>(kind: &str, file: &'a str) -> Option<Task<'a>>
    ensures { IsTaskOf result (option_map (λ k. Solve k file.now) (kind_of kind.now)) }
{
    let kind = kind_of(kind)?;
    Some(Task::Solve { kind, file })
}

// `core` with these words.
fn core_of<'a>(kind: &str, file: &'a str) -> Option<Task<'a>>
    ensures { IsTaskOf result (core_of kind.now file.now) }
{
    let kind = extended_kind_of(kind)?;
    Some(Task::Core { kind, file })
}

// What four words ask for.
fn four_words<'a>(verb: &str, first: &'a str, second: &'a str, third: &'a str) -> Option<Task<'a>>
    ensures { IsTaskOf result (command_of (verb.now ∷ first.now ∷ second.now ∷ third.now ∷ [])) }
{
    match verb {
        "check" => check_of(first, second, third),
        "extend" => extend_of(first, second, third),
        "check-core" => check_core_of(first, second, third),
        _ => numbered_command_of(verb, first, second, third),
    }
}

// A command that has a number among its words, with these words.
fn numbered_command_of<'a>(
    verb: &str,
    first: &'a str,
    second: &'a str,
    third: &'a str,
) -> Option<Task<'a>>
    ensures { IsTaskOf result (numbered_command_of verb.now first.now second.now third.now) }
{
    match verb {
        "gen" => gen_of(first, second, third),
        "meet" => meet_of(first, second, third),
        "list" => list_of(first, second, third),
        _ => None,
    }
}

// `check` with these words.
fn check_of<'a>(kind: &str, file: &'a str, verdict: &'a str) -> Option<Task<'a>>
    ensures { IsTaskOf result (check_of kind.now file.now verdict.now) }
{
    if are_both_input(file, verdict) {
        return None;
    }
    let kind = kind_of(kind)?;
    Some(Task::Check {
        kind,
        file,
        verdict,
    })
}

// `extend` with these words.
fn extend_of<'a>(kind: &str, file: &'a str, rows: &'a str) -> Option<Task<'a>>
    ensures { IsTaskOf result (extend_of kind.now file.now rows.now) }
{
    if are_both_input(file, rows) {
        return None;
    }
    let kind = extended_kind_of(kind)?;
    Some(Task::Extend { kind, file, rows })
}

// `check-core` with these words.
fn check_core_of<'a>(kind: &str, file: &'a str, core: &'a str) -> Option<Task<'a>>
    ensures { IsTaskOf result (check_core_of kind.now file.now core.now) }
{
    if are_both_input(file, core) {
        return None;
    }
    let kind = extended_kind_of(kind)?;
    Some(Task::CheckCore { kind, file, core })
}

// `gen` with these words.
fn gen_of(seed: &str, columns: &str, rows: &str) -> Option<Task<'static>>
    ensures { IsTaskOf result (gen_of seed.now columns.now rows.now) }
{
    let seed = number_in(0, u64::MAX, seed)?;
    let columns = number_in(1, u64::from(MAX_COLUMNS), columns)? as u32;
    let rows = number_in(0, u64::from(MAX_ROWS), rows)? as u32;
    Some(Task::Gen {
        seed,
        columns,
        rows,
    })
}

// `meet` with these words.
fn meet_of<'a>(columns: &str, first: &'a str, second: &'a str) -> Option<Task<'a>>
    ensures { IsTaskOf result (meet_of columns.now first.now second.now) }
{
    if are_both_input(first, second) {
        return None;
    }
    let columns = number_in(1, u64::from(MAX_COLUMNS), columns)? as u32;
    Some(Task::Meet {
        columns,
        first,
        second,
    })
}

// `list` with these words.
fn list_of<'a>(kind: &str, file: &'a str, count: &str) -> Option<Task<'a>>
    ensures { IsTaskOf result (list_of kind.now file.now count.now) }
{
    let kind = extended_kind_of(kind)?;
    let count = number_in(1, u64::from(MAX_ORDERS), count)? as u32;
    Some(Task::ListOrders { kind, file, count })
}

// `check-unit` with these words.
fn check_unit_of<'a>(file: &'a str, unit: &'a str) -> Option<Task<'a>>
    ensures { IsTaskOf result (check_unit_of file.now unit.now) }
{
    if are_both_input(file, unit) {
        return None;
    }
    Some(Task::CheckUnit { file, unit })
}

// The kind of a word.
fn kind_of(word: &str) -> Option<Kind>
    ensures { result ≡ kind_of word.now }
{
    match word {
        "matrix" => Some(Kind::Matrix),
        "rows" => Some(Kind::Rows),
        "table" => Some(Kind::Table),
        "circular" => Some(Kind::Circular),
        "convex" => Some(Kind::Convex),
        "doubly" => Some(Kind::Doubly),
        "proper" => Some(Kind::Proper),
        "robinson" => Some(Kind::Robinson),
        "clones" => Some(Kind::Clones),
        _ => None,
    }
}

// The kind of a word, among those that `extend`, `core`, `check-core` and `list` take.
fn extended_kind_of(word: &str) -> Option<Kind>
    ensures kind { result ≡ extended_kind_of word.now }
    ensures taken { IfSome result IsExtended }
{
    match word {
        "matrix" => Some(Kind::Matrix),
        "rows" => Some(Kind::Rows),
        "table" => Some(Kind::Table),
        _ => None,
    }
}

// The number that a word of digits writes, if it is from `least` to `most`.
fn number_in(least: u64, most: u64, word: &str) -> Option<u64>
    ensures number { result ≡ number_in least most word.now }
    ensures range { IfSome result (λ n. (least ≤ n) × (n ≤ most)) }
{
    match number(word.as_bytes()) {
        Numeral::Value(n) if least <= n && n <= most => Some(n),
        _ => None,
    }
}

// Whether both names are that of standard input, which can be read but once.
fn are_both_input(file: &str, other: &str) -> bool
    ensures { result ≡ are_both_input file.now other.now }
{
    file == "-" && other == "-"
}
