//! How answers cross to a program that is not Rattle.

ghost use Rattle.std.specs.Prelude.{◌≡◌};
ghost use Rattle.bench_c.specs.Told.{trace_told, check_told, routes_told};

use checks::{Check, Verdict};
use networks::faults::StudyFault;
use routes::Routes;

/// What tracing answers. If it was refused, nothing is answered, and the rest is 0; likewise below.
#[repr(C)]
#[derive(Clone, Copy)]
pub struct TraceAnswer {
    pub answered: bool,
    pub ones: usize,
}

/// What a check answers.
#[repr(C)]
#[derive(Clone, Copy)]
pub struct CheckAnswer {
    pub answered: bool,
    pub blocked: bool,
    pub greatest: u32,
    pub held: usize,
}

/// What routes answers.
#[repr(C)]
#[derive(Clone, Copy)]
pub struct RoutesAnswer {
    pub answered: bool,
    pub arriving: bool,
    pub held: usize,
}

impl TraceAnswer {
    pub(crate) const REFUSED: TraceAnswer = TraceAnswer {
        answered: false,
        ones: 0,
    };

    pub(crate) fn of(given: Result<usize, StudyFault>) -> TraceAnswer
        ensures { result ≡ trace_told given }
    {
        match given {
            Ok(ones) => TraceAnswer {
                answered: true,
                ones,
            },
            Err(_) => TraceAnswer::REFUSED,
        }
    }
}

impl CheckAnswer {
    pub(crate) const REFUSED: CheckAnswer = CheckAnswer {
        answered: false,
        blocked: false,
        greatest: 0,
        held: 0,
    };

    pub(crate) fn of(given: Result<Check, StudyFault>) -> CheckAnswer
        ensures { result ≡ check_told given }
    {
        match given {
            Ok(check) => CheckAnswer {
                answered: true,
                blocked: matches!(check.verdict, Verdict::Blocked),
                greatest: check.numbering.greatest,
                held: check.numbering.held,
            },
            Err(_) => CheckAnswer::REFUSED,
        }
    }
}

impl RoutesAnswer {
    pub(crate) const REFUSED: RoutesAnswer = RoutesAnswer {
        answered: false,
        arriving: false,
        held: 0,
    };

    pub(crate) fn of(given: Result<Routes, StudyFault>) -> RoutesAnswer
        ensures { result ≡ routes_told given }
    {
        match given {
            Ok(routes) => RoutesAnswer {
                answered: true,
                arriving: routes.arriving,
                held: routes.held,
            },
            Err(_) => RoutesAnswer::REFUSED,
        }
    }
}
