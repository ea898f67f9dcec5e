// What a check finds.
ghost use Rattle.std.specs.Prelude.{◌≡◌, ◌++◌};
ghost use Rattle.commands.specs.Faults.{fault_status, fault_text};
ghost use Rattle.commands.specs.Judgements.{judgement_fault};

use std::fmt;
use verdict_judge::Reason;

/// What is found of the bytes of a verdict.
#[derive(Clone, Copy)]
pub enum Judgement {
    /// They are the text of a verdict that passes each test.
    Valid,
    /// They are more than [`MAX_VERDICT_BYTES`](crate::MAX_VERDICT_BYTES).
    TooLong,
    /// They are the text of no verdict.
    NoVerdict,
    /// They are the text of a verdict, of which this test is the first that fails.
    Fails(Reason),
}

// The numbers behind the words of a judgement, each after a space.
#[derive(Clone, Copy)]
enum Numbers {
    Absent,
    One(u32),
    Two(u32, u32),
}

impl Judgement {
    ghost use Rattle.commands.specs.Numbers.{numbers_text, judgement_numbers};

    /// The exit status: 0 for valid, 1 for invalid.
    pub fn status(&self) -> u8
        ensures { result ≡ fault_status (judgement_fault self.now) }
    {
        match self {
            Judgement::Valid => 0,
            _ => 1,
        }
    }

    // The words before the numbers.
    fn words(&self) -> &'static str
        ensures { fault_text (judgement_fault self.now) ≡ result.now ++ numbers_text (judgement_numbers self.now) }
    {
        match *self {
            Judgement::Valid => "valid",
            Judgement::TooLong => "invalid too-long",
            Judgement::NoVerdict => "invalid text",
            Judgement::Fails(Reason::Kind) => "invalid kind",
            Judgement::Fails(Reason::Columns) => "invalid columns",
            Judgement::Fails(Reason::Order(_)) => "invalid order",
            Judgement::Fails(Reason::Tree(_, _)) => "invalid tree",
            Judgement::Fails(Reason::Complete(_)) => "invalid complete",
            Judgement::Fails(Reason::Intervals) => "invalid intervals",
            Judgement::Fails(Reason::Places) => "invalid places",
            Judgement::Fails(Reason::Contigs) => "invalid contigs",
            Judgement::Fails(Reason::Length(_)) => "invalid length",
            Judgement::Fails(Reason::Pair(_)) => "invalid pair",
            Judgement::Fails(Reason::Repeat(_)) => "invalid repeat",
            Judgement::Fails(Reason::Join(_)) => "invalid join",
        }
    }

    // The numbers behind the words.
    fn numbers(&self) -> Numbers
        ensures { result ≡ judgement_numbers self.now }
    {
        match *self {
            Judgement::Fails(Reason::Order(side) | Reason::Complete(side)) => {
                Numbers::One(u32::from(side))
            }
            Judgement::Fails(Reason::Tree(side, row)) => Numbers::Two(u32::from(side), row),
            Judgement::Fails(
                Reason::Length(n) | Reason::Pair(n) | Reason::Repeat(n) | Reason::Join(n),
            ) => Numbers::One(n),
            _ => Numbers::Absent,
        }
    }
}

impl fmt::Display for Judgement {
    ghost use Rattle.std.specs.Prelude.{Some};
    ghost use Rattle.commands.specs.Faults.{fault_text};
    ghost use Rattle.commands.specs.Judgements.{judgement_fault};

    ghost output = { λ judgement. Some (fault_text (judgement_fault judgement)) };

    fn fmt<W: fmt::Write>(&self, f: &mut fmt::Formatter<W>) -> fmt::Result {
        let words = self.words();
        match self.numbers() {
            Numbers::Absent => f.write_str(words),
            Numbers::One(n) => write!(f, "{words} {n}"),
            Numbers::Two(n, m) => write!(f, "{words} {n} {m}"),
        }
    }
}
