//! Tracing into buffers whose content shows what was written.

ghost use Rattle.std.specs.Prelude.{T};
ghost use Rattle.networks.specs.Cleared.{AllZero};

use networks::Network;
use networks::faults::StudyFault;
use std::alloc::{AllocError, Global};
use tracing::trace;

// What the buffers hold before tracing: neither 0 nor 1.
const BYTE: u8 = 7;

const WORD: u32 = 9;

/// What tracing a network answered and what it left in its buffers.
#[derive(Drop)]
pub struct Attempt {
    pub answer: Result<usize, StudyFault>,
    pub table: Vec<u8>,
    work: Vec<u32>,
}

impl Attempt {
    /// Traces a network into a table of so many bytes, with so many words of work.
    pub(super) fn new<N: Network>(
        heap: Global,
        net: &N,
        bytes: usize,
        words: usize,
    ) -> Result<Attempt, AllocError> {
        let mut table = vec![in heap; BYTE; bytes]?;
        let mut work = vec![in heap; WORD; words]?;
        let answer = trace(net, table.as_mut_slice(), work.as_mut_slice());
        Ok(Attempt {
            answer,
            table,
            work,
        })
    }

    // Whether every work word is 0.
    fn cleared(&self) -> bool
        ensures { T result → AllZero self.now.work.items }
    {
        self.work.iter().all(|word| *word == 0)
    }

    // Whether the bytes of the table from a position on are as they were.
    fn untouched_from(&self, position: usize) -> bool {
        self.table.iter().skip(position).all(|byte| *byte == BYTE)
    }

    // How many of the table's first bytes, one for each pair, are 1. None where one of them is neither 0 nor 1.
    fn marked(&self, pairs: usize) -> Option<usize> {
        let marks = self.table.as_slice().get(..pairs)?;
        if marks.iter().any(|byte| *byte > 1) {
            return None;
        }
        Some(marks.iter().filter(|byte| **byte == 1).count())
    }

    /// Whether the buffers are as the answer says, for so many pairs: the work is 0; a refusal leaves the table; else the
    /// bytes of the pairs are 0 and 1, the answer counts those that are 1, and the bytes beyond are as they were.
    pub(super) fn kept(&self, pairs: usize) -> bool {
        self.cleared()
            && match self.answer {
                Ok(count) => self.marked(pairs) == Some(count) && self.untouched_from(pairs),
                Err(_) => self.untouched_from(0),
            }
    }
}
