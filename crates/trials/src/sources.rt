//! Sources of networks against one another: a network has the same answers, whichever source gives it.

ghost use Rattle.trials.specs.Alike.{AlikeAt, Alike};
ghost use Rattle.std.specs.Prelude.{T};

use crate::attempt::Attempt;
use crate::failing::{Failure, require};
use networks::Network;
use networks::pairs::{Pair, Ways, pair_count};
use records::{Record, Size};
use spidergon::Spidergon;
use std::alloc::{AllocError, Global};
use tables::Table;

// The largest Spidergon whose records a table takes.
const LARGEST: u16 = 28;

// A Spidergon of few records.
const SMALL: u16 = 2;

// The channels that leave its first switch and its last.
const ENDS: [u16; 8] = [0, 1, 2, 3, 28, 29, 30, 31];

// Whether two networks give the same answers about a pair, at one position past the last way too.
fn same_at<A: Network, B: Network>(a: &A, b: &B, pair: Pair) -> bool
    ensures { T result → AlikeAt (A.Network.meaning a.now) (B.Network.meaning b.now) pair.channel pair.place }
{
    a.entry(pair) == b.entry(pair)
        && a.home(pair) == b.home(pair)
        && a.way_count(pair) == b.way_count(pair)
        && Ways::new(a, pair).eq(Ways::new(b, pair))
}

// Whether two networks give the same answers, at one channel and one place past the last too.
fn same_answers<A: Network, B: Network>(a: &A, b: &B) -> bool
    ensures { T result → Alike (A.Network.meaning a.now) (B.Network.meaning b.now) }
{
    if a.channels() != b.channels() || a.places() != b.places() {
        return false;
    }
    for channel in 0..=a.channels() {
        for place in 0..=a.places() {
            if !same_at(a, b, Pair { channel, place }) {
                return false;
            }
        }
    }
    true
}

/// The ways of a pair, in their order.
pub(super) fn ways_of<N: Network>(
    heap: Global,
    net: &N,
    pair: Pair,
) -> Result<Vec<u16>, AllocError> {
    Ways::new(net, pair).collect(heap)
}

/// How many channels and places a network has.
pub(super) fn size_of<N: Network>(net: &N) -> Size {
    Size {
        channels: net.channels(),
        places: net.places(),
    }
}

// Adds the records that a network's answers about a pair amount to: whether it is an entry, whether it is home, and its ways.
fn push_records<N: Network>(
    records: &mut Vec<Record>,
    net: &N,
    pair: Pair,
) -> Result<(), AllocError> {
    let Pair { channel, place } = pair;
    if net.entry(pair) {
        records.push(Record::Entry { channel, place })?;
    }
    if net.home(pair) {
        records.push(Record::Home { channel, place })?;
    }
    for next in Ways::new(net, pair) {
        records.push(Record::Way {
            channel,
            place,
            next,
        })?;
    }
    Ok(())
}

// The records that a network's answers amount to.
fn records_of<N: Network>(heap: Global, net: &N) -> Result<Vec<Record>, AllocError> {
    let mut records = Vec::new(heap);
    for channel in 0..net.channels() {
        for place in 0..net.places() {
            push_records(&mut records, net, Pair { channel, place })?;
        }
    }
    Ok(records)
}

// Traces a network into just enough bytes.
fn traced<N: Network>(heap: Global, net: &N) -> Result<Attempt, Failure> {
    let pairs = pair_count(net);
    let attempt = Attempt::new(heap, net, pairs, pairs)?;
    require(attempt.kept(pairs), "the buffers are as the answer says")?;
    Ok(attempt)
}

// Traces both networks, which have to agree, and answers how many pairs are allowed.
fn same_traces<A: Network, B: Network>(heap: Global, a: &A, b: &B) -> Result<usize, Failure> {
    let of_a = traced(heap, a)?;
    let of_b = traced(heap, b)?;
    require(
        of_a.table.as_slice() == of_b.table.as_slice(),
        "the same table",
    )?;
    let count = of_a.answer?;
    require(of_b.answer? == count, "the same count")?;
    Ok(count)
}

// What a Spidergon and the table of its records have in common.
#[derive(Clone, Copy)]
struct Common {
    records: usize,
    allowed: usize,
}

impl Common {
    fn new(heap: Global, size: u16) -> Result<Common, Failure> {
        let ring = Spidergon::new(size)?;
        let records = records_of(heap, &ring)?;
        let table = Table::new(heap, size_of(&ring), records.as_slice())?;
        require(same_answers(&ring, &table), "the same answers")?;
        let allowed = same_traces(heap, &ring, &table)?;
        Ok(Common {
            records: records.len(),
            allowed,
        })
    }
}

// All records but the one at a position.
fn without(heap: Global, records: &[Record], left_out: usize) -> Result<Vec<Record>, AllocError> {
    records
        .iter()
        .enumerate()
        .filter(|(position, _)| *position != left_out)
        .map(|(_, record)| *record)
        .collect(heap)
}

// Tables that lack one record of a Spidergon.
#[derive(Clone, Copy)]
struct Lacking {
    tables: usize,
    unlike: usize,
}

impl Lacking {
    // Counts the tables, and those that give other answers than the Spidergon.
    fn new(heap: Global, size: u16) -> Result<Lacking, Failure> {
        let ring = Spidergon::new(size)?;
        let records = records_of(heap, &ring)?;
        let mut unlike = 0usize;
        // a loop, since its body asks for memory and can fail
        for position in 0..records.len() {
            let rest = without(heap, records.as_slice(), position)?;
            let table = Table::new(heap, size_of(&ring), rest.as_slice())?;
            if !same_answers(&ring, &table) {
                unlike = unlike.saturating_add(1);
            }
        }
        Ok(Lacking {
            tables: records.len(),
            unlike,
        })
    }
}

// Where packets to each place go first from a channel.
fn first_ways<N: Network>(
    heap: Global,
    net: &N,
    channel: u16,
) -> Result<Vec<Option<u16>>, AllocError> {
    (0..net.places())
        .map(|place| net.way(Pair { channel, place }, 0))
        .collect(heap)
}

/// Tells where channels of a small Spidergon lead.
pub(super) fn tell_ways(rt: &HostRuntime) -> Result<(), Failure> {
    let ring = Spidergon::new(SMALL)?;
    for channel in ENDS {
        let ways = first_ways(rt.alloc(), &ring, channel)?;
        println!(rt; "spidergon {SMALL}: ways of channel {channel} by place {ways:?}")?;
    }
    Ok(())
}

/// Compares Spidergons with the tables of their records.
pub(super) fn compare(rt: &HostRuntime) -> Result<(), Failure> {
    for size in 1..=LARGEST {
        let Common { records, allowed } = Common::new(rt.alloc(), size)?;
        println!(rt;
            "spidergon {size}: {records} records, a table of them gives the same answers, {allowed} allowed pairs"
        )?;
    }
    let Lacking { tables, unlike } = Lacking::new(rt.alloc(), SMALL)?;
    println!(rt;
        "spidergon {SMALL}: {unlike} of {tables} tables that lack one of its records give other answers"
    )?;
    Ok(())
}
