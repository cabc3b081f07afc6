//! Calls with buffers that suffice and buffers that do not.

use crate::attempt::{Attempt, Call, Lengths};
use crate::small::{IN_PART, LOOP};
use anyhow::ensure;
use loads::LoadRecord;
use networks::Network;
use spidergon::Spidergon;
use std::alloc::{AllocError, Global};

// The size of a Spidergon.
const RING: u16 = 3;

// How many items more a buffer has that is longer than it need be.
const MORE: usize = 2;

// How long a buffer is.
#[derive(Clone, Copy)]
enum Fit {
    Exact,
    OneShort,
    Longer,
    Empty,
}

// A length that suffices and one that does not, of which each buffer has one or the other.
const NEAR: [Fit; 2] = [Fit::Exact, Fit::OneShort];

const FAR: [Fit; 2] = [Fit::Longer, Fit::Empty];

impl Fit {
    // The length, where so many items are needed.
    fn length(self, needed: usize) -> usize {
        match self {
            Fit::Exact => needed,
            Fit::OneShort => needed.saturating_sub(1),
            Fit::Longer => needed.saturating_add(MORE),
            Fit::Empty => 0,
        }
    }
}

// Tells what a call answers with buffers of these lengths, and checks what is left in them.
fn call_with<N: Network>(
    rt: &HostRuntime,
    name: &str,
    net: &N,
    call: Call,
    lengths: Lengths,
) -> anyhow::Result<()> {
    let attempt = Attempt::new(rt.alloc(), net, call, lengths)?;
    let kept = attempt.kept(Lengths::needed(net, call));
    ensure!(kept, "the buffers are as the answer says");
    match attempt.answer {
        Ok(answer) => println!(rt;
            "{name}, {call}, {lengths}: {answer}; what lies beyond as it was, the work 0"
        )?,
        Err(fault) => println!(rt;
            "{name}, {call}, {lengths}: {fault}; all as it was, the work 0"
        )?,
    }
    Ok(())
}

// Checks with each buffer of one of two lengths.
fn vary_check<N: Network>(
    rt: &HostRuntime,
    name: &str,
    net: &N,
    fits: [Fit; 2],
) -> anyhow::Result<()> {
    let needed = Lengths::needed(net, Call::Check);
    for bytes in fits {
        for numbers in fits {
            for records in fits {
                for words in fits {
                    let lengths = Lengths {
                        bytes: bytes.length(needed.bytes),
                        numbers: numbers.length(needed.numbers),
                        records: records.length(needed.records),
                        words: words.length(needed.words),
                    };
                    call_with(rt, name, net, Call::Check, lengths)?;
                }
            }
        }
    }
    Ok(())
}

// Finds routes with each buffer of one of two lengths.
fn vary_routes<N: Network>(
    rt: &HostRuntime,
    name: &str,
    net: &N,
    fits: [Fit; 2],
) -> anyhow::Result<()> {
    let needed = Lengths::needed(net, Call::Routes);
    for bytes in fits {
        for numbers in fits {
            for words in fits {
                let lengths = Lengths {
                    bytes: bytes.length(needed.bytes),
                    numbers: numbers.length(needed.numbers),
                    records: needed.records,
                    words: words.length(needed.words),
                };
                call_with(rt, name, net, Call::Routes, lengths)?;
            }
        }
    }
    Ok(())
}

fn places_of(heap: Global, load: &[LoadRecord]) -> Result<Vec<Option<u16>>, AllocError> {
    load.iter().map(|record| record.place()).collect(heap)
}

fn vary_both<N: Network>(rt: &HostRuntime, name: &str, net: &N) -> anyhow::Result<()> {
    for fits in [NEAR, FAR] {
        vary_check(rt, name, net, fits)?;
        vary_routes(rt, name, net, fits)?;
    }
    Ok(())
}

// Tells what a check leaves in buffers that are longer than they need be.
fn tell_buffers<N: Network>(rt: &HostRuntime, name: &str, net: &N) -> anyhow::Result<()> {
    let needed = Lengths::needed(net, Call::Check);
    let lengths = Lengths {
        bytes: Fit::Longer.length(needed.bytes),
        numbers: Fit::Longer.length(needed.numbers),
        records: Fit::Longer.length(needed.records),
        words: Fit::Longer.length(needed.words),
    };
    let attempt = Attempt::new(rt.alloc(), net, Call::Check, lengths)?;
    let table = attempt.table;
    println!(rt; "{name}, the table and two bytes beyond: {table:?}")?;
    let numbers = attempt.numbers;
    println!(rt; "{name}, the numbers and two beyond: {numbers:?}")?;
    let places = places_of(rt.alloc(), attempt.load.as_slice())?;
    println!(rt; "{name}, the places of the load and two beyond: {places:?}")?;
    Ok(())
}

/// Tries buffers of several lengths.
pub(super) fn vary(rt: &HostRuntime) -> anyhow::Result<()> {
    let ring = Spidergon::new(RING)?;
    vary_both(rt, "spidergon 3", &ring)?;
    let way_out = LOOP.table(rt.alloc())?;
    vary_both(rt, LOOP.name, &way_out)?;
    let in_part = IN_PART.table(rt.alloc())?;
    vary_both(rt, IN_PART.name, &in_part)?;
    tell_buffers(rt, IN_PART.name, &in_part)
}
