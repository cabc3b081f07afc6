//! What checking a network and finding its longest routes come to, told line by line.

use crate::attempt::{Attempt, Call, Lengths};
use anyhow::ensure;
use loads::LoadRecord;
use networks::Network;
use numbering::HELD;
use std::alloc::{AllocError, Global};
use std::fmt;

// A number, or a dash where there is none.
#[derive(Clone, Copy)]
struct Mark(Option<u32>);

impl Mark {
    fn of_number(number: u32) -> Mark {
        Mark((number != HELD).then_some(number))
    }

    fn of_record(record: LoadRecord) -> Mark {
        Mark(record.place().map(u32::from))
    }
}

impl fmt::Display for Mark {
    fn fmt<W: fmt::Write>(&self, f: &mut fmt::Formatter<W>) -> fmt::Result {
        match self.0 {
            Some(number) => number.fmt(f),
            None => f.write_str("-"),
        }
    }
}

// The numbers that were given, with a dash for each that is held.
fn marks_of_numbers(heap: Global, numbers: &[u32]) -> Result<Vec<Mark>, AllocError> {
    numbers
        .iter()
        .map(|number| Mark::of_number(*number))
        .collect(heap)
}

// The places of a load, with a dash for each record that is empty.
fn marks_of_load(heap: Global, load: &[LoadRecord]) -> Result<Vec<Mark>, AllocError> {
    load.iter()
        .map(|record| Mark::of_record(*record))
        .collect(heap)
}

// Tells a list.
fn tell_marks(rt: &HostRuntime, name: &str, what: &str, marks: &[Mark]) -> anyhow::Result<()> {
    print!(rt; "{name}, {what}:")?;
    for mark in marks {
        print!(rt; " {mark}")?;
    }
    println!(rt; "")?;
    Ok(())
}

// The numbers that were given to what is not held.
#[derive(Clone, Copy)]
struct Given {
    greatest: u32,
    sum: u64,
}

impl Given {
    fn new(numbers: &[u32]) -> Given {
        let mut given = Given {
            greatest: 0,
            sum: 0,
        };
        for number in numbers {
            if *number != HELD {
                given = given.with(*number);
            }
        }
        given
    }

    fn with(self, number: u32) -> Given {
        Given {
            greatest: self.greatest.max(number),
            sum: self.sum.saturating_add(u64::from(number)),
        }
    }
}

// A call with buffers that are just long enough.
fn attempt<N: Network>(heap: Global, net: &N, call: Call) -> anyhow::Result<Attempt> {
    let needed = Lengths::needed(net, call);
    let attempt = Attempt::new(heap, net, call, needed)?;
    ensure!(attempt.kept(needed), "the buffers are as the answer says");
    Ok(attempt)
}

// Tells what a call answers about the network, and the greatest and the sum of the numbers that it gives.
fn tell_answer<N: Network>(
    rt: &HostRuntime,
    name: &str,
    net: &N,
    call: Call,
) -> anyhow::Result<()> {
    let attempt = attempt(rt.alloc(), net, call)?;
    let Given { greatest, sum } = Given::new(attempt.numbers.as_slice());
    let answer = attempt.answer?;
    println!(rt; "{name}, {call}: {answer}; numbers up to {greatest}, {sum} in all")?;
    Ok(())
}

/// Tells what check and routes answer about the network.
pub(super) fn tell_answers<N: Network>(
    rt: &HostRuntime,
    name: &str,
    net: &N,
) -> anyhow::Result<()> {
    tell_answer(rt, name, net, Call::Check)?;
    tell_answer(rt, name, net, Call::Routes)
}

/// Tells the numbers of the channels and the places of the blocked load.
pub(super) fn tell_channels<N: Network>(
    rt: &HostRuntime,
    name: &str,
    net: &N,
) -> anyhow::Result<()> {
    let checked = attempt(rt.alloc(), net, Call::Check)?;
    let numbers = marks_of_numbers(rt.alloc(), checked.numbers.as_slice())?;
    tell_marks(rt, name, "numbers of the channels", numbers.as_slice())?;
    let places = marks_of_load(rt.alloc(), checked.load.as_slice())?;
    tell_marks(rt, name, "places of the blocked load", places.as_slice())
}

/// Tells the numbers of the pairs.
pub(super) fn tell_pairs<N: Network>(rt: &HostRuntime, name: &str, net: &N) -> anyhow::Result<()> {
    let routed = attempt(rt.alloc(), net, Call::Routes)?;
    let numbers = marks_of_numbers(rt.alloc(), routed.numbers.as_slice())?;
    tell_marks(rt, name, "numbers of the pairs", numbers.as_slice())
}
