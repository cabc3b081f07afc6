//! The buffers of drains and judges, and calls in them.

use crate::shown::Places;
use drains::drain;
use drains::faults::DrainFault;
use judges::{LoadJudged, NumbersJudged, judge_load, judge_numbers};
use loads::LoadRecord;
use networks::Network;
use networks::faults::StudyFault;
use networks::pairs::{Pair, is_allowed};
use std::alloc::{AllocError, Global};
use std::fmt;

// What the buffers hold before a call: bytes that are neither 0 nor 1, a number that is given to no channel here, and words that are
// not 0.
const BYTE: u8 = 7;

pub const NUMBER: u32 = 7_777;

const WORD: u32 = 9;

/// What is asked about a network.
#[derive(Clone, Copy)]
pub enum Study {
    Drain,
    JudgeNumbers,
    JudgeLoad,
}

/// What is answered.
#[derive(Clone, Copy)]
pub enum Outcome {
    /// The load is emptied by so many moves and takes.
    Drained(usize),
    Sound,
    Blocked,
    NoPacket,
    Offends(Pair),
    Refused(DrainFault),
}

/// A table of allowed pairs, the numbers of channels, a load and a work area. Drains are lent all of them, and judges all but the
/// load or the numbers.
#[derive(Drop)]
pub struct Buffers {
    table: Vec<u8>,
    pub numbers: Vec<u32>,
    pub load: Vec<LoadRecord>,
    work: Vec<u32>,
}

/// The load that has packets for these places.
pub(super) fn load_of(heap: Global, places: &[Option<u16>]) -> Result<Vec<LoadRecord>, AllocError> {
    let mut load = Vec::new(heap);
    for place in places {
        load.push(match place {
            Some(place) => LoadRecord::holding(*place),
            None => LoadRecord::EMPTY,
        })?;
    }
    Ok(load)
}

impl Buffers {
    /// Buffers with these numbers and packets for these places, and so many bytes and words.
    pub(super) fn new(
        heap: Global,
        bytes: usize,
        numbers: &[u32],
        places: &[Option<u16>],
        words: usize,
    ) -> Result<Buffers, AllocError> {
        let mut lent = Buffers {
            table: vec![in heap; BYTE; bytes]?,
            numbers: Vec::new(heap),
            load: load_of(heap, places)?,
            work: vec![in heap; WORD; words]?,
        };
        lent.numbers.extend_from_slice(numbers)?;
        Ok(lent)
    }

    /// Takes the packets out of the load that are not allowed by the table. Beyond the channels there may be any.
    pub(super) fn clear_strays<N: Network>(&mut self, net: &N) {
        for channel in 0..net.channels() {
            if let Some(record) = self.load.get_mut(usize::from(channel)) {
                if let Some(place) = record.place() {
                    if !is_allowed(net, self.table.as_slice(), Pair { channel, place }) {
                        *record = LoadRecord::EMPTY;
                    }
                }
            }
        }
    }

    /// Drains the load.
    pub(super) fn drain<N: Network>(&mut self, net: &N) -> Result<usize, DrainFault> {
        drain(
            net,
            self.table.as_mut_slice(),
            self.numbers.as_mut_slice(),
            self.load.as_mut_slice(),
            self.work.as_mut_slice(),
        )
    }

    fn judge_numbers<N: Network>(&mut self, net: &N) -> Result<NumbersJudged, StudyFault> {
        judge_numbers(
            net,
            self.table.as_mut_slice(),
            self.numbers.as_slice(),
            self.work.as_mut_slice(),
        )
    }

    fn judge_load<N: Network>(&mut self, net: &N) -> Result<LoadJudged, StudyFault> {
        judge_load(
            net,
            self.table.as_mut_slice(),
            self.load.as_slice(),
            self.work.as_mut_slice(),
        )
    }

    /// Makes the call in these buffers.
    pub(super) fn make<N: Network>(&mut self, net: &N, study: Study) -> Outcome {
        match study {
            Study::Drain => match self.drain(net) {
                Ok(calls) => Outcome::Drained(calls),
                Err(fault) => Outcome::Refused(fault),
            },
            Study::JudgeNumbers => match self.judge_numbers(net) {
                Ok(NumbersJudged::Sound) => Outcome::Sound,
                Ok(NumbersJudged::Offends(pair)) => Outcome::Offends(pair),
                Err(fault) => Outcome::Refused(DrainFault::Study(fault)),
            },
            Study::JudgeLoad => match self.judge_load(net) {
                Ok(LoadJudged::Blocked) => Outcome::Blocked,
                Ok(LoadJudged::NoPacket) => Outcome::NoPacket,
                Ok(LoadJudged::Offends(pair)) => Outcome::Offends(pair),
                Err(fault) => Outcome::Refused(DrainFault::Study(fault)),
            },
        }
    }
}

impl fmt::Display for Study {
    fn fmt<W: fmt::Write>(&self, f: &mut fmt::Formatter<W>) -> fmt::Result {
        f.write_str(match self {
            Study::Drain => "drain",
            Study::JudgeNumbers => "judge numbers",
            Study::JudgeLoad => "judge load",
        })
    }
}

impl fmt::Display for Outcome {
    fn fmt<W: fmt::Write>(&self, f: &mut fmt::Formatter<W>) -> fmt::Result {
        match self {
            Outcome::Drained(calls) => write!(f, "{calls} moves and takes"),
            Outcome::Sound => f.write_str("sound"),
            Outcome::Blocked => f.write_str("blocked"),
            Outcome::NoPacket => f.write_str("no packet"),
            Outcome::Offends(pair) => {
                let Pair { channel, place } = pair;
                write!(f, "channel {channel} offends, place {place}")
            }
            Outcome::Refused(fault) => fault.fmt(f),
        }
    }
}

impl fmt::Display for Buffers {
    fn fmt<W: fmt::Write>(&self, f: &mut fmt::Formatter<W>) -> fmt::Result {
        let Buffers {
            table,
            numbers,
            load,
            work,
        } = self;
        let places = Places(load.as_slice());
        write!(
            f,
            "table {table:?}, numbers {numbers:?}, load{places}, words {work:?}"
        )
    }
}
