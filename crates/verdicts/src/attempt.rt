//! Calls with buffers whose content shows what was written.

use checks::{Check, check};
use loads::LoadRecord;
use networks::Network;
use networks::faults::StudyFault;
use networks::pairs::pair_count;
use numbering::Numbering;
use routes::{Routes, routes};
use std::alloc::{AllocError, Global};
use std::fmt;

// What the buffers hold before a call: bytes that are neither 0 nor 1, a number that is given to nothing here, words that are
// not 0, and packets for a place that no network here has.
const BYTE: u8 = 7;

const NUMBER: u32 = 7_777;

const PLACE: u16 = 777;

const WORD: u32 = 9;

/// What is asked about a network.
#[derive(Clone, Copy)]
pub enum Call {
    Check,
    Routes,
}

/// What a call answers.
#[derive(Clone, Copy)]
pub enum Answer {
    Check(Check),
    Routes(Routes),
}

/// How long the buffers of a call are. Routes are lent no load.
#[derive(Clone, Copy)]
pub struct Lengths {
    pub bytes: usize,
    pub numbers: usize,
    pub records: usize,
    pub words: usize,
}

/// What a call answered and what it left in its buffers.
#[derive(Drop)]
pub struct Attempt {
    pub answer: Result<Answer, StudyFault>,
    pub table: Vec<u8>,
    pub numbers: Vec<u32>,
    pub load: Vec<LoadRecord>,
    work: Vec<u32>,
}

impl fmt::Display for Call {
    fn fmt<W: fmt::Write>(&self, f: &mut fmt::Formatter<W>) -> fmt::Result {
        f.write_str(match self {
            Call::Check => "check",
            Call::Routes => "routes",
        })
    }
}

impl fmt::Display for Answer {
    fn fmt<W: fmt::Write>(&self, f: &mut fmt::Formatter<W>) -> fmt::Result {
        match self {
            Answer::Check(
                Check {
                    verdict,
                    numbering: Numbering { greatest, held },
                },
            ) => { write!(f, "{verdict}, greatest number {greatest}, {held} held") }
            Answer::Routes(Routes { arriving, held }) => {
                let word = if *arriving {
                    "arriving"
                } else {
                    "not arriving"
                };
                write!(f, "{word}, {held} held")
            }
        }
    }
}

impl fmt::Display for Lengths {
    fn fmt<W: fmt::Write>(&self, f: &mut fmt::Formatter<W>) -> fmt::Result {
        let Lengths {
            bytes,
            numbers,
            records,
            words,
        } = self;
        write!(
            f,
            "{bytes} bytes, {numbers} numbers, {records} records, {words} words"
        )
    }
}

impl Lengths {
    /// What a call about the network needs.
    pub(super) fn needed<N: Network>(net: &N, call: Call) -> Lengths {
        let pairs = pair_count(net);
        let channels = usize::from(net.channels());
        let (numbers, records) = match call {
            Call::Check => (channels, channels),
            Call::Routes => (pairs, 0),
        };
        Lengths {
            bytes: pairs,
            numbers,
            records,
            words: pairs,
        }
    }
}

impl Attempt {
    /// A call about the network with buffers of these lengths.
    pub(super) fn new<N: Network>(
        heap: Global,
        net: &N,
        call: Call,
        lengths: Lengths,
    ) -> Result<Attempt, AllocError> {
        let mut table = vec![in heap; BYTE; lengths.bytes]?;
        let mut numbers = vec![in heap; NUMBER; lengths.numbers]?;
        let mut load = vec![in heap; LoadRecord::holding(PLACE); lengths.records]?;
        let mut work = vec![in heap; WORD; lengths.words]?;
        let answer = match call {
            Call::Check => check(
                net,
                table.as_mut_slice(),
                numbers.as_mut_slice(),
                load.as_mut_slice(),
                work.as_mut_slice(),
            )
            .map(Answer::Check),
            Call::Routes => routes(
                net,
                table.as_mut_slice(),
                numbers.as_mut_slice(),
                work.as_mut_slice(),
            )
            .map(Answer::Routes),
        };
        Ok(Attempt {
            answer,
            table,
            numbers,
            load,
            work,
        })
    }

    // Whether every work word is 0.
    fn cleared(&self) -> bool {
        self.work.iter().all(|word| *word == 0)
    }

    // Whether the buffers but the work area are as they were from these positions on.
    fn untouched_from(&self, lengths: Lengths) -> bool {
        let before = LoadRecord::holding(PLACE);
        self.table
            .iter()
            .skip(lengths.bytes)
            .all(|byte| *byte == BYTE)
            && self
                .numbers
                .iter()
                .skip(lengths.numbers)
                .all(|number| *number == NUMBER)
            && self
                .load
                .iter()
                .skip(lengths.records)
                .all(|record| *record == before)
    }

    // Whether the buffers but the work area are written up to these positions.
    fn written_to(&self, lengths: Lengths) -> bool {
        let before = LoadRecord::holding(PLACE);
        self.table.iter().take(lengths.bytes).all(|byte| *byte <= 1)
            && self
                .numbers
                .iter()
                .take(lengths.numbers)
                .all(|number| *number != NUMBER)
            && self
                .load
                .iter()
                .take(lengths.records)
                .all(|record| *record != before)
    }

    /// Whether the buffers are as the answer says, where the call needs these lengths: the work is 0; a refusal leaves the
    /// others as they were; else they are written as far as they are needed, and as they were beyond.
    pub(super) fn kept(&self, needed: Lengths) -> bool {
        let none = Lengths {
            bytes: 0,
            numbers: 0,
            records: 0,
            words: 0,
        };
        self.cleared()
            && match self.answer {
                Ok(_) => self.written_to(needed) && self.untouched_from(needed),
                Err(_) => self.untouched_from(none),
            }
    }
}
