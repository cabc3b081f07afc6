//! What is just within the limits of networks, and what is just beyond them.

use crate::failing::Failure;
use crate::sources::{size_of, ways_of};
use networks::faults::StudyFault;
use networks::pairs::Pair;
use records::{Record, Size};
use spidergon::Spidergon;
use std::alloc::{AllocError, Global};
use std::fmt;
use tables::Table;

// The largest size of a table.
const CHANNELS: u16 = 1024;

const PLACES: u16 = 256;

// How many records a table takes at most.
const MOST_RECORDS: usize = 65_535;

// The line of the first record.
const FIRST_LINE: usize = 2;

// The largest Spidergon.
const RING: u16 = 64;

// A size for trials of records.
const SMALL: Size = Size {
    channels: 9,
    places: 2,
};

const ENTRY: Record = Record::Entry {
    channel: 8,
    place: 1,
};

const HOME: Record = Record::Home {
    channel: 0,
    place: 0,
};

// A record that the size rules out.
const OUTSIDE: Record = Record::Home {
    channel: 8,
    place: 2,
};

// A pair that is given as many ways as it can have, some of them twice.
const PAIR: Pair = Pair {
    channel: 4,
    place: 1,
};

const WAYS: [u16; 8] = [8, 0, 3, 3, 1, 7, 0, 2];

const fn way(next: u16) -> Record {
    Record::Way {
        channel: PAIR.channel,
        place: PAIR.place,
        next,
    }
}

// The size of a network that was made, or why none was.
#[derive(Clone, Copy)]
struct Outcome(Result<Size, StudyFault>);

impl Outcome {
    fn of_spidergon(size: u16) -> Outcome {
        Outcome(Spidergon::new(size).map(|ring| size_of(&ring)))
    }

    fn of_table(heap: Global, size: Size, records: &[Record]) -> Outcome {
        let table = Table::new(heap, size, records).map_err(StudyFault::from);
        Outcome(table.map(|table| size_of(&table)))
    }
}

impl fmt::Display for Outcome {
    fn fmt<W: fmt::Write>(&self, f: &mut fmt::Formatter<W>) -> fmt::Result {
        match self.0 {
            Ok(Size { channels, places }) => {
                write!(f, "taken, {channels} channels by {places} places")
            }
            Err(fault) => write!(f, "{fault}"),
        }
    }
}

fn spidergon_sizes(rt: &HostRuntime) -> Result<(), Failure> {
    for size in [1, RING, RING + 1, 0] {
        let outcome = Outcome::of_spidergon(size);
        println!(rt; "spidergon of size {size}: {outcome}")?;
    }
    Ok(())
}

fn table_sizes(rt: &HostRuntime) -> Result<(), Failure> {
    let sizes = [
        (1, 1),
        (CHANNELS, PLACES),
        (CHANNELS + 1, PLACES),
        (CHANNELS, PLACES + 1),
        (CHANNELS + 1, PLACES + 1),
        (0, PLACES),
        (CHANNELS, 0),
        (0, 0),
    ];
    for (channels, places) in sizes {
        let outcome = Outcome::of_table(rt.alloc(), Size { channels, places }, &[]);
        println!(rt; "table of {channels} channels by {places} places: {outcome}")?;
    }
    Ok(())
}

// Records whose numbers are the last within a small size, or equal to a count.
fn ranges(rt: &HostRuntime) -> Result<(), Failure> {
    let Size { channels, places } = SMALL;
    let (last_channel, last_place) = (channels - 1, places - 1);
    let line = FIRST_LINE + 1;
    let pairs = [
        (last_channel, last_place),
        (channels, last_place),
        (last_channel, places),
        (channels, places),
    ];
    for (channel, place) in pairs {
        let records = [
            Record::Entry { channel, place },
            Record::Home { channel, place },
            Record::Way {
                channel,
                place,
                next: last_channel,
            },
            Record::Way {
                channel,
                place,
                next: channels,
            },
        ];
        for record in records {
            let outcome = Outcome::of_table(rt.alloc(), SMALL, &[ENTRY, record]);
            println!(rt; "{record:?} on line {line}: {outcome}")?;
        }
    }
    Ok(())
}

// Records that give one pair eight ways.
fn eight_ways(heap: Global) -> Result<Vec<Record>, AllocError> {
    WAYS.into_iter().map(way).collect(heap)
}

// The ways that a table of these records has.
fn taken_ways(heap: Global) -> Result<Vec<u16>, Failure> {
    let records = eight_ways(heap)?;
    let table = Table::new(heap, SMALL, records.as_slice())?;
    Ok(ways_of(heap, &table, PAIR)?)
}

fn numbers_of_ways(rt: &HostRuntime) -> Result<(), Failure> {
    let ways = taken_ways(rt.alloc())?;
    println!(rt; "eight ways of a pair: taken, {ways:?}")?;
    for next in [0, SMALL.channels] {
        let mut records = eight_ways(rt.alloc())?;
        records.push(ENTRY)?;
        records.push(HOME)?;
        let line = records.len().saturating_add(FIRST_LINE);
        records.push(way(next))?;
        let outcome = Outcome::of_table(rt.alloc(), SMALL, records.as_slice());
        println!(rt; "a ninth way to {next} on line {line}: {outcome}")?;
    }
    Ok(())
}

fn numbers_of_records(rt: &HostRuntime) -> Result<(), Failure> {
    for count in [MOST_RECORDS, MOST_RECORDS + 1, MOST_RECORDS + 2] {
        let records = vec![in rt.alloc(); ENTRY; count]?;
        let outcome = Outcome::of_table(rt.alloc(), SMALL, records.as_slice());
        println!(rt; "{count} records: {outcome}")?;
    }
    Ok(())
}

// Too many records, one of which has a fault of its own.
fn faults_among_many(rt: &HostRuntime) -> Result<(), Failure> {
    let count = MOST_RECORDS + 2;
    for position in [0, MOST_RECORDS - 1, MOST_RECORDS, MOST_RECORDS + 1] {
        let mut records = vec![in rt.alloc(); ENTRY; count]?;
        if let Some(record) = records.get_mut(position) {
            *record = OUTSIDE;
        }
        let line = position.saturating_add(FIRST_LINE);
        let outcome = Outcome::of_table(rt.alloc(), SMALL, records.as_slice());
        println!(rt; "{count} records, {OUTSIDE:?} on line {line}: {outcome}")?;
    }
    let records = vec![in rt.alloc(); way(0); count]?;
    let outcome = Outcome::of_table(rt.alloc(), SMALL, records.as_slice());
    println!(rt; "{count} ways of a pair: {outcome}")?;
    Ok(())
}

/// Tries sizes, numbers and counts at their limits.
pub(super) fn approach(rt: &HostRuntime) -> Result<(), Failure> {
    spidergon_sizes(rt)?;
    table_sizes(rt)?;
    ranges(rt)?;
    numbers_of_ways(rt)?;
    numbers_of_records(rt)?;
    faults_among_many(rt)
}
