//! Tracing with buffers that suffice and buffers that do not.

use crate::attempt::Attempt;
use crate::failing::{Failure, require};
use networks::Network;
use networks::pairs::pair_count;
use records::{Record, Size};
use spidergon::Spidergon;
use std::alloc::Global;
use tables::Table;

// The sizes of the Spidergons that are traced, the largest among them.
const RINGS: [u16; 2] = [3, 64];

// How many bytes and words more a buffer has that is longer than it need be.
const MORE: usize = 2;

// A network with a ring of ways, with two ways of a pair, and with ways of a home pair, which are not followed.
const SIZE: Size = Size {
    channels: 4,
    places: 2,
};

const RECORDS: [Record; 8] = [
    Record::Entry {
        channel: 0,
        place: 0,
    },
    Record::Way {
        channel: 0,
        place: 0,
        next: 1,
    },
    Record::Way {
        channel: 0,
        place: 0,
        next: 3,
    },
    Record::Way {
        channel: 1,
        place: 0,
        next: 0,
    },
    Record::Home {
        channel: 3,
        place: 0,
    },
    Record::Way {
        channel: 3,
        place: 0,
        next: 2,
    },
    Record::Entry {
        channel: 2,
        place: 1,
    },
    Record::Home {
        channel: 2,
        place: 1,
    },
];

// Traces with buffers of these lengths, and checks what is left in them.
fn trace_into<N: Network>(
    rt: &HostRuntime,
    net: &N,
    bytes: usize,
    words: usize,
) -> Result<(), Failure> {
    let pairs = pair_count(net);
    let attempt = Attempt::new(rt.alloc(), net, bytes, words)?;
    require(attempt.kept(pairs), "the buffers are as the answer says")?;
    match attempt.answer {
        Ok(count) => println!(rt;
            "{pairs} pairs, {bytes} bytes, {words} words: {count} allowed pairs, the bytes beyond as they were, the work 0"
        )?,
        Err(fault) => println!(rt;
            "{pairs} pairs, {bytes} bytes, {words} words: {fault}, the table as it was, the work 0"
        )?,
    }
    Ok(())
}

// Traces with buffers that are just long enough, longer, and too short.
fn vary_lengths<N: Network>(rt: &HostRuntime, net: &N) -> Result<(), Failure> {
    let pairs = pair_count(net);
    let short = pairs.saturating_sub(1);
    let more = pairs + MORE;
    let lengths = [
        (pairs, pairs),
        (more, more),
        (short, pairs),
        (pairs, short),
        (short, short),
        (more, short),
        (short, more),
        (0, 0),
    ];
    for (bytes, words) in lengths {
        trace_into(rt, net, bytes, words)?;
    }
    Ok(())
}

// Traces the network into more bytes than it has pairs, and answers all of them.
fn traced<N: Network>(heap: Global, net: &N) -> Result<Vec<u8>, Failure> {
    let attempt = Attempt::new(heap, net, pair_count(net) + MORE, pair_count(net))?;
    attempt.answer?;
    Ok(attempt.table)
}

/// Tries buffers of several lengths with both sources of networks.
pub(super) fn vary(rt: &HostRuntime) -> Result<(), Failure> {
    for size in RINGS {
        let ring = Spidergon::new(size)?;
        vary_lengths(rt, &ring)?;
    }
    let table = Table::new(rt.alloc(), SIZE, &RECORDS)?;
    vary_lengths(rt, &table)?;
    let bytes = traced(rt.alloc(), &table)?;
    println!(rt; "the traced table and two bytes beyond: {bytes:?}")?;
    Ok(())
}
