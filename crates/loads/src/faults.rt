//! Faults of calls on a load.

ghost use Rattle.std.specs.Prelude.{◌≡◌, Some};
ghost use Rattle.records.specs.Faults.{told};
ghost use Rattle.loads.specs.Faults.{load_parts};
ghost use Rattle.loads.specs.declared.faults.LoadFault.TheVariants.{Study};

use networks::faults::StudyFault;
use records::faults::{Fault, Layer, Parts};
use std::error::Error;
use std::fmt;

/// Why a call on a load is refused.
#[derive(Clone, Copy, PartialEq, Eq, Debug)]
pub enum LoadFault {
    /// A buffer is too short.
    Study(StudyFault),
    /// There is no such channel.
    NoSuchChannel,
    /// There is no such place.
    NoSuchPlace,
    /// Packets for the place may not be put into the channel.
    NoEntry,
    /// A packet stands in the channel, or one in each.
    ChannelTaken,
    /// No packet stands in the channel.
    ChannelEmpty,
    /// The packet is home and moves no further.
    Home,
    /// The packet is not home and cannot be taken.
    NotHome,
    /// The packet has no way at that position.
    NoSuchWay,
    /// A packet stands in the channel that the way leads to.
    WayTaken,
}

impl From<StudyFault> for LoadFault {
    ghost from_gives = { λ e r. r ≡ Study e };

    fn from(e: StudyFault) -> LoadFault {
        LoadFault::Study(e)
    }
}

impl Fault for LoadFault {
    ghost parts = { load_parts };

    fn parts(self) -> Parts {
        let number = match self {
            LoadFault::Study(fault) => return fault.parts(),
            LoadFault::NoSuchChannel => 30,
            LoadFault::NoSuchPlace => 31,
            LoadFault::NoEntry => 32,
            LoadFault::ChannelTaken => 33,
            LoadFault::ChannelEmpty => 34,
            LoadFault::Home => 35,
            LoadFault::NotHome => 36,
            LoadFault::NoSuchWay => 37,
            LoadFault::WayTaken => 38,
        };
        Parts {
            layer: Layer::Study,
            number,
            line: 0,
            field: 0,
        }
    }
}

impl fmt::Display for LoadFault {
    ghost output = { λ f. Some (told (load_parts f)) };

    fn fmt<W: fmt::Write>(&self, f: &mut fmt::Formatter<W>) -> fmt::Result {
        LoadFault::parts(*self).fmt(f)
    }
}

impl Error for LoadFault {}
