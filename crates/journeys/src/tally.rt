//! Calls that are counted by their refusals.

use loads::LoadRecord;
use std::alloc::{AllocError, Global};

/// The refusals of calls, and a checksum of what they answer and leave.
#[derive(Drop)]
pub struct Tally {
    refusals: Vec<Option<u16>>,
    checksum: u32,
}

impl Tally {
    pub(super) fn new(heap: Global) -> Tally {
        Tally {
            refusals: Vec::new(heap),
            checksum: 0,
        }
    }

    // Adds a number to the checksum.
    fn add(&mut self, number: u32) {
        self.checksum = self.checksum.wrapping_mul(31).wrapping_add(number);
    }

    /// Adds a call by the number of its refusal, or by what its answer weighs.
    pub(super) fn add_call(&mut self, refusal: Option<u16>, weight: u32) -> Result<(), AllocError> {
        self.add(weight);
        self.refusals.push(refusal)?;
        Ok(())
    }

    /// Adds a load that is left.
    pub(super) fn add_load(&mut self, load: &[LoadRecord]) {
        for record in load {
            self.add(match record.place() {
                Some(place) => u32::from(place) + 1,
                None => 0,
            });
        }
    }

    /// Adds numbers that are left.
    pub(super) fn add_numbers(&mut self, numbers: &[u32]) {
        for number in numbers {
            self.add(*number);
        }
    }

    // How many calls have this refusal, or none.
    fn count(&self, refusal: Option<u16>) -> u32 {
        let mut count: u32 = 0;
        for other in self.refusals.as_slice() {
            if *other == refusal {
                count = count.saturating_add(1);
            }
        }
        count
    }

    /// Tells how many calls are accepted, how many have each of these refusals, and the checksum.
    pub(super) fn tell(&self, rt: &HostRuntime, numbers: &[u16]) -> anyhow::Result<()> {
        print!(rt; ": accepted: {}", self.count(None))?;
        for number in numbers {
            print!(rt; ", {number}: {}", self.count(Some(*number)))?;
        }
        println!(rt; ", checksum {}", self.checksum)?;
        Ok(())
    }
}
