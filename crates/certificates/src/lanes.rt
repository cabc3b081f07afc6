//! A lane of two channels, with and without an exit: two networks which show that whatever the promises ask for exists.

ghost use Rattle.std.specs.Prelude.{MatchResult};
ghost use Rattle.certificates.specs.Lanes.{lane, lane_conditions, LaneCertified};

use crate::{Certificate, certify};
use loads::LoadRecord;
use networks::Network;
use networks::faults::StudyFault;
use networks::pairs::Pair;

// Packets for its one place are put into channel 0 and move on to channel 1, where they are home if there is an exit.
#[derive(Clone, Copy)]
struct Lane {
    exit: bool,
}

impl Network for Lane {
    ghost meaning = { λ l. lane l.exit };

    ghost conditions = { λ l. lane_conditions l.exit };

    fn channels(&self) -> u16 {
        2
    }

    fn places(&self) -> u16 {
        1
    }

    fn entry(&self, pair: Pair) -> bool {
        pair.channel == 0 && pair.place == 0
    }

    fn home(&self, pair: Pair) -> bool {
        self.exit && pair.channel == 1 && pair.place == 0
    }

    fn way_count(&self, pair: Pair) -> usize {
        if self.entry(pair) { 1 } else { 0 }
    }

    fn way(&self, pair: Pair, position: usize) -> Option<u16> {
        (position < self.way_count(pair)).then_some(1)
    }
}

/// Certifies the lane. Its contract shows that there are networks that are free and arriving, and blocked ones, and that whatever the
/// promises ask for exists: allowed loads with packets, a sound numbering, a blocked load, and runs in which packets are put, move and
/// are taken, as often as they cost, and in which they wait.
pub fn certify_lane(exit: bool) -> Result<Certificate, StudyFault>
    ensures { MatchResult result (LaneCertified exit) (λ f. ⊥) }
{
    let mut allowed = [0u8; 2];
    let mut numbers = [0u32; 2];
    let mut load = [LoadRecord::EMPTY; 2];
    let mut longest = [0u32; 2];
    let mut work = [0u32; 2];
    let lane = Lane { exit };
    certify(
        &lane,
        &mut allowed,
        &mut numbers,
        &mut load,
        &mut longest,
        &mut work,
    )
}
