//! How answers about loads cross to a program that is not Rattle.

ghost use Rattle.std.specs.Prelude.{◌≡◌, true, false};
ghost use Rattle.bench_loads.specs.Told.{drain_told, numbers_told, load_told};

use drains::faults::DrainFault;
use judges::{LoadJudged, NumbersJudged};
use networks::faults::StudyFault;
use networks::pairs::Pair;
use records::faults::Fault;

/// What draining answers: how many calls it took, or the number of the refusal, which is 0 if there is none. If there is no network,
/// nothing is answered, and the rest is 0; likewise below.
#[repr(C)]
#[derive(Clone, Copy)]
pub struct DrainAnswer {
    pub answered: bool,
    pub refused: u16,
    pub calls: usize,
}

/// What a judge answers: whether what it was given holds, and else the pair that offends, if there is one.
#[repr(C)]
#[derive(Clone, Copy)]
pub struct JudgeAnswer {
    pub answered: bool,
    pub holds: bool,
    pub offends: bool,
    pub channel: u16,
    pub place: u16,
}

/// How many of the puts were accepted.
#[repr(C)]
#[derive(Clone, Copy)]
pub struct PutsAnswer {
    pub answered: bool,
    pub accepted: usize,
}

impl DrainAnswer {
    pub(crate) const NONE: DrainAnswer = DrainAnswer {
        answered: false,
        refused: 0,
        calls: 0,
    };

    pub(crate) fn of(given: Result<usize, DrainFault>) -> DrainAnswer
        ensures { result ≡ drain_told given }
    {
        match given {
            Ok(calls) => DrainAnswer {
                answered: true,
                refused: 0,
                calls,
            },
            Err(fault) => DrainAnswer {
                answered: true,
                refused: fault.number(),
                calls: 0,
            },
        }
    }
}

impl JudgeAnswer {
    pub(crate) const NONE: JudgeAnswer = JudgeAnswer {
        answered: false,
        holds: false,
        offends: false,
        channel: 0,
        place: 0,
    };

    // What was given holds.
    const HOLDS: JudgeAnswer = JudgeAnswer {
        answered: true,
        holds: true,
        ..JudgeAnswer::NONE
    };

    // The pair offends.
    fn offends(pair: Pair) -> JudgeAnswer
        ensures { result ≡ record { answered = true; holds = false; offends = true; channel = pair.channel; place = pair.place } }
    {
        JudgeAnswer {
            answered: true,
            holds: false,
            offends: true,
            channel: pair.channel,
            place: pair.place,
        }
    }

    pub(crate) fn of_numbers(given: Result<NumbersJudged, StudyFault>) -> JudgeAnswer
        ensures { result ≡ numbers_told given }
    {
        match given {
            Ok(NumbersJudged::Sound) => JudgeAnswer::HOLDS,
            Ok(NumbersJudged::Offends(pair)) => JudgeAnswer::offends(pair),
            Err(_) => JudgeAnswer::NONE,
        }
    }

    pub(crate) fn of_load(given: Result<LoadJudged, StudyFault>) -> JudgeAnswer
        ensures { result ≡ load_told given }
    {
        match given {
            Ok(LoadJudged::Blocked) => JudgeAnswer::HOLDS,
            Ok(LoadJudged::Offends(pair)) => JudgeAnswer::offends(pair),
            Ok(LoadJudged::NoPacket) => JudgeAnswer {
                holds: false,
                ..JudgeAnswer::HOLDS
            },
            Err(_) => JudgeAnswer::NONE,
        }
    }
}

impl PutsAnswer {
    pub(crate) const NONE: PutsAnswer = PutsAnswer {
        answered: false,
        accepted: 0,
    };
}
