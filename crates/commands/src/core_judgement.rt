// What a check of the text of a core finds.
ghost use Rattle.std.specs.Prelude.{◌≡◌, ◌++◌};
ghost use Rattle.commands.specs.Faults.{fault_status, fault_text};
ghost use Rattle.commands.specs.CoreJudgements.{core_judgement_fault};

use std::fmt;
use verdict_judge::CoreReason;

/// What is found of the bytes of the text of a core.
#[derive(Clone, Copy)]
pub enum CoreJudgement {
    /// They are the text of a core that passes each test.
    Valid,
    /// They are more than [`MAX_CORE_BYTES`](crate::MAX_CORE_BYTES).
    TooLong,
    /// They are the text of no core.
    NoCore,
    /// They are the text of a core, of which this test is the first that fails.
    Fails(CoreReason),
}

impl CoreJudgement {
    ghost use Rattle.commands.specs.Numbers.{number_text, core_judgement_number};

    /// The exit status: 0 for valid, 1 for invalid.
    pub fn status(&self) -> u8
        ensures { result ≡ fault_status (core_judgement_fault self.now) }
    {
        match self {
            CoreJudgement::Valid => 0,
            _ => 1,
        }
    }

    // The words before the number.
    fn words(&self) -> &'static str
        ensures { fault_text (core_judgement_fault self.now) ≡ result.now ++ number_text (core_judgement_number self.now) }
    {
        match *self {
            CoreJudgement::Valid => "valid",
            CoreJudgement::TooLong => "invalid too-long",
            CoreJudgement::NoCore => "invalid text",
            CoreJudgement::Fails(CoreReason::Kind) => "invalid kind",
            CoreJudgement::Fails(CoreReason::Columns) => "invalid columns",
            CoreJudgement::Fails(CoreReason::Rows) => "invalid rows",
            CoreJudgement::Fails(CoreReason::Order(_)) => "invalid order",
            CoreJudgement::Fails(CoreReason::Length(_)) => "invalid length",
            CoreJudgement::Fails(CoreReason::Pair(_)) => "invalid pair",
            CoreJudgement::Fails(CoreReason::Repeat(_)) => "invalid repeat",
            CoreJudgement::Fails(CoreReason::Join(_)) => "invalid join",
        }
    }

    // The number behind the words, if there is one.
    fn number(&self) -> Option<u32>
        ensures { result ≡ core_judgement_number self.now }
    {
        match *self {
            CoreJudgement::Fails(
                CoreReason::Order(n)
                | CoreReason::Length(n)
                | CoreReason::Pair(n)
                | CoreReason::Repeat(n)
                | CoreReason::Join(n),
            ) => Some(n),
            _ => None,
        }
    }
}

impl fmt::Display for CoreJudgement {
    ghost use Rattle.std.specs.Prelude.{Some};
    ghost use Rattle.commands.specs.Faults.{fault_text};
    ghost use Rattle.commands.specs.CoreJudgements.{core_judgement_fault};

    ghost output = { λ judgement. Some (fault_text (core_judgement_fault judgement)) };

    fn fmt<W: fmt::Write>(&self, f: &mut fmt::Formatter<W>) -> fmt::Result {
        let words = self.words();
        match self.number() {
            None => f.write_str(words),
            Some(n) => write!(f, "{words} {n}"),
        }
    }
}
