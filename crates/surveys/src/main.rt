//! Surveys the network files that the arguments name: the check of each network, its longest routes, and numbers and loads that are judged
//! and drained.

#![tactic(auto)]

mod buffers;
mod judged;
mod shown;
mod survey;

use crate::survey::survey;
use files::judging::Summary;
use netfiles::read_network;
use records::{Record, Size};
use std::{env, fs};
use tables::Table;

// How many records a network is read with at most.
const MAX_RECORDS: usize = 4_096;

// What the list of records holds before a file is read.
const UNUSED: Record = Record::Entry {
    channel: 0,
    place: 0,
};

// Tells the fault of a file, or what its network comes to.
fn tell_file(rt: &HostRuntime, name: &str, file: &[u8]) -> anyhow::Result<()> {
    let mut list = vec![in rt.alloc(); UNUSED; MAX_RECORDS]?;
    match read_network(rt.alloc(), file, list.as_mut_slice()) {
        Ok(read) => {
            let Summary { size, records } = read;
            let Size { channels, places } = size;
            println!(rt; "{name}: {channels} channels, {places} places, {records} records")?;
            list.truncate(records);
            let table = Table::new(rt.alloc(), size, list.as_slice())?;
            survey(rt, &table)
        }
        Err(fault) => {
            println!(rt; "{name}: {fault}")?;
            Ok(())
        }
    }
}

fn run(rt: &HostRuntime) -> anyhow::Result<()> {
    for name in env::args(rt)?.skip(1) {
        let file = fs::read(rt, name.as_str())?;
        tell_file(rt, name.as_str(), file.as_slice())?;
    }
    Ok(())
}

fn main(rt: HostRuntime) -> anyhow::Result<()> {
    run(&rt)
}
