//! Faults of draining.

ghost use Rattle.std.specs.Prelude.{◌≡◌, Some};
ghost use Rattle.records.specs.Faults.{told};
ghost use Rattle.drains.specs.Faults.{drain_parts};
ghost use Rattle.drains.specs.declared.faults.DrainFault.TheVariants.{Study};

use networks::faults::StudyFault;
use records::faults::{Fault, Layer, Parts};
use std::error::Error;
use std::fmt;

/// Why a load is not drained.
#[derive(Clone, Copy, PartialEq, Eq, Debug)]
pub enum DrainFault {
    /// A buffer is too short.
    Study(StudyFault),
    /// The verdict on the network is blocked.
    Blocked,
    /// Some packet stands where packets for its place cannot come.
    NotAllowed,
}

impl From<StudyFault> for DrainFault {
    ghost from_gives = { λ e r. r ≡ Study e };

    fn from(e: StudyFault) -> DrainFault {
        DrainFault::Study(e)
    }
}

impl Fault for DrainFault {
    ghost parts = { drain_parts };

    fn parts(self) -> Parts {
        let number = match self {
            DrainFault::Study(fault) => return fault.parts(),
            DrainFault::Blocked => 40,
            DrainFault::NotAllowed => 41,
        };
        Parts {
            layer: Layer::Study,
            number,
            line: 0,
            field: 0,
        }
    }
}

impl fmt::Display for DrainFault {
    ghost output = { λ f. Some (told (drain_parts f)) };

    fn fmt<W: fmt::Write>(&self, f: &mut fmt::Formatter<W>) -> fmt::Result {
        DrainFault::parts(*self).fmt(f)
    }
}

impl Error for DrainFault {}
