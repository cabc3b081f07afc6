//! Records and calls that are drawn.

use crate::calls::Call;
use loads::LoadRecord;
use networks::Network;
use std::alloc::{AllocError, Global};

// How many records there are beyond the channels.
const BEYOND: usize = 2;

/// In a sparse load one record of eight has a packet, in a dense one every other.
pub const SPARSE: u16 = 7;

pub const DENSE: u16 = 1;

/// Numbers of a linear congruential generator, and what is made of them.
#[derive(Clone, Copy)]
pub struct Draws(u32);

impl Draws {
    pub(super) fn new(seed: u32) -> Draws {
        Draws(seed)
    }

    // A number from 0 on.
    fn up_to(&mut self, most: u16) -> u16 {
        self.0 = self.0.wrapping_mul(1_664_525).wrapping_add(1_013_904_223);
        let drawn = (self.0 >> 16) % (u32::from(most) + 1);
        drawn as u16
    }

    // A packet, for the place past the last one too, or nothing, which is so many times as frequent.
    fn record<N: Network>(&mut self, net: &N, empty: u16) -> LoadRecord {
        if self.up_to(empty) == 0 {
            LoadRecord::holding(self.up_to(net.places()))
        } else {
            LoadRecord::EMPTY
        }
    }

    /// A load with records beyond the channels.
    pub(super) fn load<N: Network>(
        &mut self,
        heap: Global,
        net: &N,
        empty: u16,
    ) -> Result<Vec<LoadRecord>, AllocError> {
        let mut load = Vec::new(heap);
        for _ in 0..usize::from(net.channels()) + BEYOND {
            load.push(self.record(net, empty))?;
        }
        Ok(load)
    }

    /// A call, for the channel and the place past the last ones too. Moves come twice as often as the others.
    pub(super) fn call<N: Network>(&mut self, net: &N) -> Call {
        let kind = self.up_to(3);
        let channel = self.up_to(net.channels());
        match kind {
            0 => Call::Put(channel, self.up_to(net.places())),
            1 => Call::Take(channel),
            _ => Call::MoveOn(channel, usize::from(self.up_to(2))),
        }
    }
}
