//! Small tables.

use records::{Record, Size};
use std::alloc::Global;
use tables::Table;

fn entry(channel: u16, place: u16) -> Record {
    Record::Entry { channel, place }
}

fn home(channel: u16, place: u16) -> Record {
    Record::Home { channel, place }
}

fn way(channel: u16, place: u16, next: u16) -> Record {
    Record::Way {
        channel,
        place,
        next,
    }
}

fn table(heap: Global, channels: u16, places: u16, records: &[Record]) -> anyhow::Result<Table> {
    Ok(Table::new(heap, Size { channels, places }, records)?)
}

/// Two channels, from each of which packets go to the other.
pub(super) fn crossing(heap: Global) -> anyhow::Result<Table> {
    let records = [
        entry(0, 1),
        entry(1, 0),
        home(0, 0),
        home(1, 1),
        way(0, 1, 1),
        way(1, 0, 0),
    ];
    table(heap, 2, 2, &records)
}

/// Two channels, from each of which packets go to the other, and a third to which packets can go in place of the second.
pub(super) fn exit(heap: Global) -> anyhow::Result<Table> {
    let records = [
        entry(0, 1),
        entry(1, 0),
        home(0, 0),
        home(1, 1),
        home(2, 1),
        way(0, 1, 1),
        way(1, 0, 0),
        way(0, 1, 2),
    ];
    table(heap, 3, 2, &records)
}

/// A packet may go to and fro for ever, but a way leads out of the loop.
pub(super) fn way_out(heap: Global) -> anyhow::Result<Table> {
    let records = [
        entry(0, 0),
        home(2, 0),
        way(0, 0, 1),
        way(0, 0, 2),
        way(1, 0, 0),
    ];
    table(heap, 3, 1, &records)
}

/// Two of three channels are held.
pub(super) fn in_part(heap: Global) -> anyhow::Result<Table> {
    let records = [
        entry(0, 0),
        entry(0, 1),
        home(1, 0),
        home(2, 1),
        way(0, 0, 1),
        way(0, 1, 1),
        way(0, 1, 2),
    ];
    table(heap, 3, 2, &records)
}

/// One of two ways leads back to the channel, and a home pair has a way.
pub(super) fn own_way(heap: Global) -> anyhow::Result<Table> {
    let records = [
        entry(0, 0),
        entry(0, 1),
        home(1, 0),
        way(0, 0, 0),
        way(0, 0, 1),
        way(1, 0, 0),
    ];
    table(heap, 2, 2, &records)
}

/// First ways that lead to greater numbers, to the same and to smaller ones that are not the smallest; a home pair with a way, and
/// a pair that is not allowed.
pub(super) fn stairs(heap: Global) -> anyhow::Result<Table> {
    let records = [
        entry(4, 0),
        entry(5, 0),
        entry(5, 1),
        home(0, 0),
        home(1, 1),
        way(1, 0, 0),
        way(2, 0, 1),
        way(3, 0, 2),
        way(4, 0, 3),
        way(5, 0, 2),
        way(1, 1, 0),
        way(2, 1, 1),
        way(3, 1, 4),
        way(3, 1, 2),
        way(4, 1, 5),
        way(4, 1, 1),
        way(5, 1, 4),
        way(5, 1, 3),
        way(5, 1, 1),
    ];
    table(heap, 6, 2, &records)
}
