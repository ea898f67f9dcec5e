// What a check of a unit model finds.
ghost use Rattle.std.specs.Prelude.{◌≡◌};
ghost use Rattle.commands.specs.Faults.{fault_status};
ghost use Rattle.commands.specs.Findings.{finding_fault};

use std::fmt;

/// What is found of the bytes of a unit model.
#[derive(Clone, Copy)]
pub enum Finding {
    /// They are the text of a unit model of the graph.
    Valid,
    /// They are more than [`MAX_VERDICT_BYTES`](crate::MAX_VERDICT_BYTES).
    TooLong,
    /// They are the text of no unit model.
    NoUnit,
    /// They are the text of one with another number of vertices.
    Vertices,
    /// They are the text of one whose length and left ends are no unit model of the graph.
    Model,
}

impl Finding {
    /// The exit status: 0 for valid, 1 for invalid.
    pub fn status(&self) -> u8
        ensures { result ≡ fault_status (finding_fault self.now) }
    {
        match self {
            Finding::Valid => 0,
            _ => 1,
        }
    }
}

impl fmt::Display for Finding {
    ghost use Rattle.std.specs.Prelude.{Some};
    ghost use Rattle.commands.specs.Faults.{fault_text};
    ghost use Rattle.commands.specs.Findings.{finding_fault};

    ghost output = { λ finding. Some (fault_text (finding_fault finding)) };

    fn fmt<W: fmt::Write>(&self, f: &mut fmt::Formatter<W>) -> fmt::Result {
        f.write_str(match *self {
            Finding::Valid => "valid",
            Finding::TooLong => "invalid too-long",
            Finding::NoUnit => "invalid text",
            Finding::Vertices => "invalid vertices",
            Finding::Model => "invalid model",
        })
    }
}
