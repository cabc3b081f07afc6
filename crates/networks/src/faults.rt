//! Faults of tables and of calls. A fault of a lower layer goes whole into the fault above it.

ghost use Rattle.std.specs.Prelude.{◌≡◌, Some, ◌<◌, ◌≤◌, MatchResult};
ghost use Rattle.records.specs.Faults.{told};
ghost use Rattle.networks.specs.Faults.{field_of, table_parts, study_parts};
ghost use Rattle.networks.specs.declared.faults.TableFault.TheVariants.{Text, NoMemory};
ghost use Rattle.networks.specs.declared.faults.StudyFault.TheVariants.{Table, Short};

use records::faults::{Fault, Layer, Parts, TextFault};
use std::alloc::AllocError;
use std::error::Error;
use std::fmt;

/// Why a file or a list of records makes no table.
// A field is the place in its line of the number that is meant: it is told as it is, so it is no enum.
#[derive(Clone, Copy, PartialEq, Eq, Debug)]
pub enum TableFault {
    /// The file's text has a fault.
    Text(TextFault),
    /// The number of channels or of places is outside its limits.
    SizeOutOfLimits { field: usize },
    /// A channel or a place is not below its count.
    OutOfRange { line: usize, field: usize },
    /// A pair is given a ninth way.
    NinthWay { line: usize },
    /// There are more records than the list holds, or than a table takes.
    TooManyRecords { line: usize },
    /// Memory cannot be had.
    NoMemory,
}

/// A buffer that a call is lent.
#[derive(Clone, Copy, PartialEq, Eq, Debug)]
pub enum Buffer {
    Allowed,
    Numbers,
    Load,
    Work,
    File,
}

/// Why a call is refused.
#[derive(Clone, Copy, PartialEq, Eq, Debug)]
pub enum StudyFault {
    /// The table has a fault, or the file's text.
    Table(TableFault),
    /// A buffer is too short.
    Short(Buffer),
    /// No Spidergon has this size.
    SpidergonSize,
}

// The conversions are written by hand, since promises name the error and a derived one has no contract.
impl From<TextFault> for TableFault {
    ghost from_gives = { λ e r. r ≡ Text e };

    fn from(e: TextFault) -> TableFault {
        TableFault::Text(e)
    }
}

impl From<AllocError> for TableFault {
    ghost from_gives = { λ e r. r ≡ NoMemory };

    fn from(_e: AllocError) -> TableFault {
        TableFault::NoMemory
    }
}

impl From<TableFault> for StudyFault {
    ghost from_gives = { λ e r. r ≡ Table e };

    fn from(e: TableFault) -> StudyFault {
        StudyFault::Table(e)
    }
}

impl Buffer {
    /// The field by which a refusal names the buffer.
    pub fn field(self) -> usize
        ensures { result ≡ field_of self }
    {
        match self {
            Buffer::Allowed => 1,
            Buffer::Numbers => 2,
            Buffer::Load => 3,
            Buffer::Work => 4,
            Buffer::File => 5,
        }
    }

    /// Refuses a buffer that is shorter than it has to be.
    pub fn check(self, needed: usize, given: usize) -> Result<(), StudyFault>
        ensures { MatchResult result (λ _. needed ≤ given) (λ f. (given < needed) × (f ≡ Short self)) }
    {
        if given < needed {
            return Err(StudyFault::Short(self));
        }
        Ok(())
    }
}

impl Fault for TableFault {
    ghost parts = { table_parts };

    fn parts(self) -> Parts {
        let (number, line, field) = match self {
            TableFault::Text(fault) => return fault.parts(),
            TableFault::SizeOutOfLimits { field } => (15, 1, field),
            TableFault::OutOfRange { line, field } => (16, line, field),
            TableFault::NinthWay { line } => (17, line, 0),
            TableFault::TooManyRecords { line } => (18, line, 0),
            TableFault::NoMemory => (19, 0, 0),
        };
        Parts {
            layer: Layer::Table,
            number,
            line,
            field,
        }
    }
}

impl Fault for StudyFault {
    ghost parts = { study_parts };

    fn parts(self) -> Parts {
        let (number, field) = match self {
            StudyFault::Table(fault) => return fault.parts(),
            StudyFault::Short(buffer) => (20, buffer.field()),
            StudyFault::SpidergonSize => (21, 0),
        };
        Parts {
            layer: Layer::Study,
            number,
            line: 0,
            field,
        }
    }
}

impl fmt::Display for TableFault {
    ghost output = { λ f. Some (told (table_parts f)) };

    fn fmt<W: fmt::Write>(&self, f: &mut fmt::Formatter<W>) -> fmt::Result {
        TableFault::parts(*self).fmt(f)
    }
}

impl Error for TableFault {}

impl fmt::Display for StudyFault {
    ghost output = { λ f. Some (told (study_parts f)) };

    fn fmt<W: fmt::Write>(&self, f: &mut fmt::Formatter<W>) -> fmt::Result {
        StudyFault::parts(*self).fmt(f)
    }
}

impl Error for StudyFault {}
