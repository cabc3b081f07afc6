//! How networks and loads cross to a program that is not Rattle: as lists of plain structs.

#![tactic(auto)]

ghost use Rattle.std.specs.Prelude.{◌≡◌, ⊤, length, min, MatchResult, MatchOption, vec_items};
ghost use Rattle.crossings.specs.Crossing.{stand_of, record_of, Standing, records_of, TableOf};
ghost use Rattle.loads.specs.Loads.{packet_in};

use loads::LoadRecord;
use records::{Record, Size};
use std::alloc::{AllocError, Global};
use tables::Table;

/// What stands in a channel: a packet for the place, or nothing.
#[repr(C)]
#[derive(Clone, Copy)]
pub struct Stand {
    pub full: bool,
    pub place: u16,
}

/// A pair: one that is an entry or home, or one that is told.
#[repr(C)]
#[derive(Clone, Copy)]
pub struct PairWords {
    pub channel: u16,
    pub place: u16,
}

/// A pair and one of its ways.
#[repr(C)]
#[derive(Clone, Copy)]
pub struct WayWords {
    pub channel: u16,
    pub place: u16,
    pub next: u16,
}

impl Stand {
    /// What a record of a load says.
    pub fn of(packet: LoadRecord) -> Stand
        ensures { result ≡ stand_of (packet_in packet) }
    {
        match packet.place() {
            Some(place) => Stand { full: true, place },
            None => Stand {
                full: false,
                place: 0,
            },
        }
    }

    /// The record of a load that says it.
    pub fn record(self) -> LoadRecord
        ensures { result ≡ record_of self }
    {
        if self.full {
            LoadRecord::holding(self.place)
        } else {
            LoadRecord::EMPTY
        }
    }
}

/// Tells what a load has in so many channels, as far as the lists go.
pub fn tell_stands(load: &[LoadRecord], channels: usize, stands: &mut [Stand])
    ensures { Standing (min channels (min (length load.now) (length stands.old))) load.now stands.old stands.new }
{
    for channel in 0..channels.min(load.len().min(stands.len())) {
        stands[channel] = Stand::of(load[channel]);
    }
}

/// The records that say these entries, homes and ways.
pub fn records_of(
    heap: Global,
    entries: &[PairWords],
    homes: &[PairWords],
    ways: &[WayWords],
) -> Result<Vec<Record>, AllocError>
    ensures { MatchResult result (λ records. vec_items records ≡ records_of entries.now homes.now ways.now) (λ _. ⊤) }
{
    let mut records = Vec::new(heap);
    for pair in entries {
        records.push(Record::Entry {
            channel: pair.channel,
            place: pair.place,
        })?;
    }
    for pair in homes {
        records.push(Record::Home {
            channel: pair.channel,
            place: pair.place,
        })?;
    }
    for way in ways {
        records.push(Record::Way {
            channel: way.channel,
            place: way.place,
            next: way.next,
        })?;
    }
    Ok(records)
}

/// The table of a size and of records in three lists, if they make one and memory for it can be had.
pub fn table_of(
    heap: Global,
    channels: u16,
    places: u16,
    entries: &[PairWords],
    homes: &[PairWords],
    ways: &[WayWords],
) -> Option<Table>
    ensures { MatchOption result ⊤ (TableOf channels places entries.now homes.now ways.now) }
{
    let records = records_of(heap, entries, homes, ways).ok()?;
    Table::new(heap, Size { channels, places }, &records).ok()
}
