//! Worked cases: networks of a few channels, each called by what it shows, and what is so of each.

#![tactic(auto)]

ghost use Rattle.std.specs.Prelude.{◌≡◌, slice_get};
ghost use Rattle.std.specs.List.{All};
ghost use Rattle.std.specs.Option.{option_map};
ghost use Rattle.cases.specs.Cases.{Shown};
ghost use Rattle.cases.specs.Telling.{told, tellings};
ghost use Rattle.cases.specs.Worked.{worked};

use checks::Verdict;
use numbering::HELD;

/// What is stated of a worked case.
#[derive(Clone, Copy, PartialEq, Eq, Debug)]
pub struct Stated {
    /// What the network shows.
    pub name: &'static str,
    pub verdict: Verdict,
    /// The numbers of the channels.
    pub numbers: &'static [u32],
    /// Whether no pair is held.
    pub arriving: bool,
    /// How many pairs are held.
    pub held_pairs: usize,
}

const STATED: [Stated; 8] = [
    Stated {
        name: "crossing pair",
        verdict: Verdict::Blocked,
        numbers: &[HELD, HELD],
        arriving: true,
        held_pairs: 0,
    },
    Stated {
        name: "crossing pair with an exit channel",
        verdict: Verdict::Free,
        numbers: &[1, 2, 0],
        arriving: true,
        held_pairs: 0,
    },
    Stated {
        name: "dead end with an entry",
        verdict: Verdict::Blocked,
        numbers: &[HELD],
        arriving: false,
        held_pairs: 1,
    },
    Stated {
        name: "dead end without an entry",
        verdict: Verdict::Free,
        numbers: &[0],
        arriving: true,
        held_pairs: 0,
    },
    Stated {
        name: "channel that leads back to itself",
        verdict: Verdict::Blocked,
        numbers: &[HELD],
        arriving: false,
        held_pairs: 1,
    },
    Stated {
        name: "channel that leads back to itself and is home",
        verdict: Verdict::Free,
        numbers: &[0],
        arriving: true,
        held_pairs: 0,
    },
    Stated {
        name: "loop with a way out",
        verdict: Verdict::Free,
        numbers: &[1, 2, 0],
        arriving: false,
        held_pairs: 2,
    },
    Stated {
        name: "Spidergon of size 1",
        verdict: Verdict::Free,
        numbers: &[1, 0, 0, 0, 1, 0, 0, 0, 1, 0, 0, 0, 1, 0, 0, 0],
        arriving: true,
        held_pairs: 0,
    },
];

/// What is stated of the worked case at a position, counted from 0, if there are so many. Its contract shows that what is stated of
/// all worked cases is so.
pub fn worked_case(position: usize) -> Option<Stated>
    ensures told { option_map told result ≡ slice_get tellings position }
    ensures shown { All Shown worked }
{
    STATED.get(position).copied()
}
