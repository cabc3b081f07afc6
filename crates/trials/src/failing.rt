//! Why the trials stop.

use networks::faults::{StudyFault, TableFault};
use std::alloc::{AllocError, AllocFailed};
use std::io;

/// Why the trials stop. What is printed of it on standard error is its `Debug`.
#[derive(Debug, Drop)]
pub enum Failure {
    /// A call refuses what it has to take.
    Refusal(StudyFault),
    /// A check does not hold.
    Unmet(&'static str),
    /// Memory cannot be had.
    NoMemory,
    /// A line cannot be printed.
    Printing(io::Error),
}

impl From<StudyFault> for Failure {
    fn from(e: StudyFault) -> Failure {
        Failure::Refusal(e)
    }
}

impl From<TableFault> for Failure {
    fn from(e: TableFault) -> Failure {
        Failure::Refusal(StudyFault::from(e))
    }
}

impl From<AllocError> for Failure {
    fn from(_e: AllocError) -> Failure {
        Failure::NoMemory
    }
}

impl<T: Drop> From<AllocFailed<T>> for Failure {
    fn from(_e: AllocFailed<T>) -> Failure {
        Failure::NoMemory
    }
}

impl From<io::Error> for Failure {
    fn from(e: io::Error) -> Failure {
        Failure::Printing(e)
    }
}

/// Stops the trials unless the check holds.
pub(super) fn require(holds: bool, what: &'static str) -> Result<(), Failure> {
    if !holds {
        return Err(Failure::Unmet(what));
    }
    Ok(())
}
