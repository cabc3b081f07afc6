//! Tables of 1,024 channels.

use crate::facts::tell_answers;
use records::{Record, Size};
use std::alloc::{AllocError, Global};
use tables::Table;

// A network has 1,024 channels at most.
const CHANNELS: u16 = 1024;

const LAST: u16 = CHANNELS - 1;

// A channel in the midst of them.
const MIDDLE: u16 = 500;

// Adds a chain: packets for the place are put into channel 0, and go from channel to channel to the last of the chain.
fn push_chain(records: &mut Vec<Record>, place: u16, last: u16) -> Result<(), AllocError> {
    records.push(Record::Entry { channel: 0, place })?;
    for channel in 0..last {
        records.push(Record::Way {
            channel,
            place,
            next: channel + 1,
        })?;
    }
    Ok(())
}

// A chain for each place, at the end of which packets are home.
fn chain(heap: Global, places: u16) -> Result<Vec<Record>, AllocError> {
    let mut records = Vec::new(heap);
    for place in 0..places {
        push_chain(&mut records, place, LAST)?;
        records.push(Record::Home {
            channel: LAST,
            place,
        })?;
    }
    Ok(records)
}

// Chains for two places, the second of which is a dead end.
fn chain_and_dead_end(heap: Global) -> Result<Vec<Record>, AllocError> {
    let mut records = chain(heap, 1)?;
    push_chain(&mut records, 1, MIDDLE)?;
    Ok(records)
}

// A ring, in which packets go round for ever.
fn ring(heap: Global) -> Result<Vec<Record>, AllocError> {
    let mut records = Vec::new(heap);
    push_chain(&mut records, 0, LAST)?;
    records.push(Record::Way {
        channel: LAST,
        place: 0,
        next: 0,
    })?;
    Ok(records)
}

// A ring of all channels but the last, to which a way leads out of the ring.
fn ring_with_way_out(heap: Global) -> Result<Vec<Record>, AllocError> {
    let mut records = chain(heap, 1)?;
    records.push(Record::Way {
        channel: LAST - 1,
        place: 0,
        next: 0,
    })?;
    Ok(records)
}

fn tell_table(rt: &HostRuntime, name: &str, places: u16, records: &[Record]) -> anyhow::Result<()> {
    let size = Size {
        channels: CHANNELS,
        places,
    };
    let table = Table::new(rt.alloc(), size, records)?;
    tell_answers(rt, name, &table)
}

/// Tells about chains and rings.
pub(super) fn tell(rt: &HostRuntime) -> anyhow::Result<()> {
    let records = chain(rt.alloc(), 1)?;
    tell_table(rt, "large chain", 1, records.as_slice())?;
    let records = chain(rt.alloc(), 3)?;
    tell_table(rt, "large chain for three places", 3, records.as_slice())?;
    let records = chain_and_dead_end(rt.alloc())?;
    tell_table(rt, "large chain and dead end", 2, records.as_slice())?;
    let records = ring(rt.alloc())?;
    tell_table(rt, "large ring", 1, records.as_slice())?;
    let records = ring_with_way_out(rt.alloc())?;
    tell_table(rt, "large ring with a way out", 1, records.as_slice())
}
