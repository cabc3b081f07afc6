//! The buffers of one network, and the calls that are made in them.

use crate::shown::Judged;
use checks::{Check, check};
use drains::drain;
use drains::faults::DrainFault;
use judges::{judge_load, judge_numbers};
use loads::LoadRecord;
use networks::Network;
use networks::faults::StudyFault;
use networks::pairs::pair_count;
use routes::{Routes, routes};
use std::alloc::{AllocError, Global};

/// The table of allowed pairs, the numbers of the channels and of the pairs, a load and a work area.
#[derive(Drop)]
pub struct Buffers {
    pub table: Vec<u8>,
    pub numbers: Vec<u32>,
    pub pair_numbers: Vec<u32>,
    pub load: Vec<LoadRecord>,
    work: Vec<u32>,
}

impl Buffers {
    /// Buffers that are just long enough for the network.
    pub(super) fn new<N: Network>(heap: Global, net: &N) -> Result<Buffers, AllocError> {
        let channels = usize::from(net.channels());
        let pairs = pair_count(net);
        Ok(Buffers {
            table: vec![in heap; 0; pairs]?,
            numbers: vec![in heap; 0; channels]?,
            pair_numbers: vec![in heap; 0; pairs]?,
            load: vec![in heap; LoadRecord::EMPTY; channels]?,
            work: vec![in heap; 0; pairs]?,
        })
    }

    /// Writes the numbers of the channels, and the blocked load.
    pub(super) fn check<N: Network>(&mut self, net: &N) -> Result<Check, StudyFault> {
        check(
            net,
            self.table.as_mut_slice(),
            self.numbers.as_mut_slice(),
            self.load.as_mut_slice(),
            self.work.as_mut_slice(),
        )
    }

    /// Writes the numbers of the pairs.
    pub(super) fn routes<N: Network>(&mut self, net: &N) -> Result<Routes, StudyFault> {
        routes(
            net,
            self.table.as_mut_slice(),
            self.pair_numbers.as_mut_slice(),
            self.work.as_mut_slice(),
        )
    }

    /// Drains the load.
    pub(super) fn drain<N: Network>(&mut self, net: &N) -> Result<usize, DrainFault> {
        drain(
            net,
            self.table.as_mut_slice(),
            self.numbers.as_mut_slice(),
            self.load.as_mut_slice(),
            self.work.as_mut_slice(),
        )
    }

    /// Judges the numbers of the channels.
    pub(super) fn judge_numbers<N: Network>(&mut self, net: &N) -> Result<Judged, StudyFault> {
        let judged = judge_numbers(
            net,
            self.table.as_mut_slice(),
            self.numbers.as_slice(),
            self.work.as_mut_slice(),
        );
        judged.map(Judged::from)
    }

    /// Judges the load.
    pub(super) fn judge_load<N: Network>(&mut self, net: &N) -> Result<Judged, StudyFault> {
        let judged = judge_load(
            net,
            self.table.as_mut_slice(),
            self.load.as_slice(),
            self.work.as_mut_slice(),
        );
        judged.map(Judged::from)
    }
}
