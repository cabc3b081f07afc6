//! What checking a network answers.

ghost use Rattle.std.specs.Prelude.{Some};
ghost use Rattle.checks.specs.Words.{verdict_word};

use numbering::Numbering;
use std::fmt;

/// Whether a network has blocked loads.
#[derive(Clone, Copy, PartialEq, Eq, Debug)]
pub enum Verdict {
    /// Every channel is numbered, and no load is blocked.
    Free,
    /// Some channel is held, and the load that a check writes is blocked.
    Blocked,
}

impl fmt::Display for Verdict {
    ghost output = { λ v. Some (verdict_word v) };

    fn fmt<W: fmt::Write>(&self, f: &mut fmt::Formatter<W>) -> fmt::Result {
        f.write_str(match self {
            Verdict::Free => "free",
            Verdict::Blocked => "blocked",
        })
    }
}

/// What checking a network answers.
#[derive(Clone, Copy, PartialEq, Eq, Debug)]
pub struct Check {
    pub verdict: Verdict,
    pub numbering: Numbering,
}
