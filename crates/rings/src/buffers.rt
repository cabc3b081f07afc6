//! Checks and longest routes in buffers that are just long enough.

use checks::{Check, check};
use loads::LoadRecord;
use networks::Network;
use networks::faults::StudyFault;
use networks::pairs::pair_count;
use routes::{Routes, routes};
use std::alloc::{AllocError, Global};

/// The table of allowed pairs, numbers of channels or pairs, a load and a work area.
#[derive(Drop)]
pub struct Buffers {
    table: Vec<u8>,
    pub numbers: Vec<u32>,
    pub load: Vec<LoadRecord>,
    work: Vec<u32>,
}

impl Buffers {
    pub(super) fn new<N: Network>(heap: Global, net: &N) -> Result<Buffers, AllocError> {
        let pairs = pair_count(net);
        Ok(Buffers {
            table: vec![in heap; 0; pairs]?,
            numbers: vec![in heap; 0; pairs]?,
            load: vec![in heap; LoadRecord::EMPTY; usize::from(net.channels())]?,
            work: vec![in heap; 0; pairs]?,
        })
    }

    /// Writes the blocked load, and the numbers of the channels.
    pub(super) fn check<N: Network>(&mut self, net: &N) -> Result<Check, StudyFault> {
        check(
            net,
            self.table.as_mut_slice(),
            self.numbers.as_mut_slice(),
            self.load.as_mut_slice(),
            self.work.as_mut_slice(),
        )
    }

    /// Writes the numbers of the pairs.
    pub(super) fn routes<N: Network>(&mut self, net: &N) -> Result<Routes, StudyFault> {
        routes(
            net,
            self.table.as_mut_slice(),
            self.numbers.as_mut_slice(),
            self.work.as_mut_slice(),
        )
    }
}
