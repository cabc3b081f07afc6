//! Small tables.

use crate::facts::{tell_answers, tell_channels, tell_pairs};
use records::{Record, Size};
use std::alloc::{AllocError, Global};
use tables::Table;

/// A network by the numbers of its records.
#[derive(Clone, Copy)]
pub struct Sample {
    pub name: &'static str,
    size: (u16, u16),
    entries: &'static [(u16, u16)],
    homes: &'static [(u16, u16)],
    ways: &'static [(u16, u16, u16)],
}

/// Two channels, from each of which packets go to the other.
const CROSSING: Sample = Sample {
    name: "crossing",
    size: (2, 2),
    entries: &[(0, 1), (1, 0)],
    homes: &[(0, 0), (1, 1)],
    ways: &[(0, 1, 1), (1, 0, 0)],
};

/// The same, and a third channel to which packets can go in place of the second.
const EXIT: Sample = Sample {
    name: "crossing with an exit",
    size: (3, 2),
    entries: &[(0, 1), (1, 0)],
    homes: &[(0, 0), (1, 1), (2, 1)],
    ways: &[(0, 1, 1), (1, 0, 0), (0, 1, 2)],
};

const DEAD_END: Sample = Sample {
    name: "dead end",
    size: (1, 1),
    entries: &[(0, 0)],
    homes: &[],
    ways: &[],
};

const NO_ENTRY: Sample = Sample {
    name: "dead end without entry",
    size: (1, 1),
    entries: &[],
    homes: &[],
    ways: &[],
};

const OWN_CHANNEL: Sample = Sample {
    name: "way back to its own channel",
    size: (1, 1),
    entries: &[(0, 0)],
    homes: &[],
    ways: &[(0, 0, 0)],
};

const OWN_HOME: Sample = Sample {
    name: "way back to its own channel, home",
    size: (1, 1),
    entries: &[(0, 0)],
    homes: &[(0, 0)],
    ways: &[(0, 0, 0)],
};

/// A packet may go to and fro for ever, but a way leads out of the loop.
pub(super) const LOOP: Sample = Sample {
    name: "loop with a way out",
    size: (3, 1),
    entries: &[(0, 0)],
    homes: &[(2, 0)],
    ways: &[(0, 0, 1), (0, 0, 2), (1, 0, 0)],
};

/// Two of three channels are held.
pub(super) const IN_PART: Sample = Sample {
    name: "held in part",
    size: (3, 2),
    entries: &[(0, 0), (0, 1)],
    homes: &[(1, 0), (2, 1)],
    ways: &[(0, 0, 1), (0, 1, 1), (0, 1, 2)],
};

const SAMPLES: [Sample; 8] = [
    CROSSING,
    EXIT,
    DEAD_END,
    NO_ENTRY,
    OWN_CHANNEL,
    OWN_HOME,
    LOOP,
    IN_PART,
];

impl Sample {
    fn records(self, heap: Global) -> Result<Vec<Record>, AllocError> {
        let entries = self.entries.iter().map(|numbers| Record::Entry {
            channel: numbers.0,
            place: numbers.1,
        });
        let homes = self.homes.iter().map(|numbers| Record::Home {
            channel: numbers.0,
            place: numbers.1,
        });
        let ways = self.ways.iter().map(|numbers| Record::Way {
            channel: numbers.0,
            place: numbers.1,
            next: numbers.2,
        });
        entries.chain(homes).chain(ways).collect(heap)
    }

    /// The table of the network.
    pub(super) fn table(self, heap: Global) -> anyhow::Result<Table> {
        let (channels, places) = self.size;
        let records = self.records(heap)?;
        Ok(Table::new(heap, Size { channels, places }, records.as_slice())?)
    }
}

fn tell_sample(rt: &HostRuntime, sample: Sample) -> anyhow::Result<()> {
    let table = sample.table(rt.alloc())?;
    tell_answers(rt, sample.name, &table)?;
    tell_channels(rt, sample.name, &table)?;
    tell_pairs(rt, sample.name, &table)
}

/// Tells about small tables.
pub(super) fn tell(rt: &HostRuntime) -> anyhow::Result<()> {
    for sample in SAMPLES {
        tell_sample(rt, sample)?;
    }
    Ok(())
}
