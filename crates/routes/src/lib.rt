//! The longest routes of packets through a network.

#![tactic(auto)]

ghost use Rattle.std.specs.Prelude.{◌≡◌, ◌<◌, ◌≤◌, ◌/◌, ◌%◌, length, MatchOption};
ghost use Rattle.networks.specs.Allowed.{pairs};
ghost use Rattle.networks.specs.Cleared.{AllZero};
ghost use Rattle.networks.specs.Secrecy.{Secret};
ghost use Rattle.routes.specs.Outcomes.{RoutesGive, Leaves};
ghost use Rattle.routes.specs.Routing.{route};
ghost use Rattle.routes.specs.Limits.{route_conditions};

mod outcome;

pub use crate::outcome::Routes;
use networks::Network;
use networks::faults::{Buffer, StudyFault};
use networks::guard::Cleared;
use networks::pairs::{Pair, must_move, pair_count};
use numbering::{Label, ReleaseSystem, number};
use tracing::trace;

// How many ways a pair has at most.
const MOST_WAYS: u16 = 8;

/// The release system of a network's pairs. An item is a packet for a place in a channel, and it needs each of its ways.
#[derive(Clone, Copy)]
pub struct Route<'a, N: Network> {
    pub net: &'a N,
}

impl<N: Network> Route<'_, N> {
    // The pair that an item stands for, if there is one.
    fn pair(&self, item: u32) -> Option<Pair>
        ensures { MatchOption result
            (pairs (N.meaning self.now.net.now) ≤ item)
            (λ p. (item < pairs (N.meaning self.now.net.now)) × (p.channel ≡ item / (N.meaning self.now.net.now).places) × (p.place ≡ item % (N.meaning self.now.net.now).places)) }
    {
        let places = u32::from(self.net.places());
        let channel = item / places;
        if channel >= u32::from(self.net.channels()) {
            return None;
        }
        // both fit, since they are below the counts
        Some(Pair {
            channel: channel as u16,
            place: (item % places) as u16,
        })
    }
}

impl<N: Network> ReleaseSystem for Route<'_, N> {
    ghost meaning = { λ s. route (N.meaning s.net.now) };

    ghost conditions = { λ s allowed. route_conditions (N.meaning s.net.now) allowed (N.conditions s.net.now) };

    fn items(&self) -> u32 {
        // it fits: a network has fewer than 2^32 pairs
        pair_count(self.net) as u32
    }

    fn slots(&self) -> u16 {
        MOST_WAYS
    }

    fn need(&self, allowed: &[u8], item: u32, slot: u16) -> bool {
        let Some(pair) = self.pair(item) else {
            return false;
        };
        must_move(self.net, allowed, pair) && usize::from(slot) < self.net.way_count(pair).max(1)
    }

    fn way(&self, _allowed: &[u8], item: u32, slot: u16, position: usize) -> Option<u32> {
        if position > 0 {
            return None;
        }
        let pair = self.pair(item)?;
        let channel = self.net.way(pair, usize::from(slot))?;
        // it fits: a network has fewer than 2^32 pairs
        Some(Pair { channel, ..pair }.position(self.net.places()) as u32)
    }

    fn label(&self, item: u32) -> Label {
        match self.pair(item) {
            Some(pair) => Label {
                channel: pair.channel,
                place: Some(pair.place),
            },
            None => Label::NONE,
        }
    }
}

/// The longest routes from all pairs. Fills the table of allowed pairs, and numbers the pairs by the release system [`Route`]:
/// a word is the number of moves of the longest route from its pair, or [`HELD`](numbering::HELD) where a packet can circle or
/// run dry. A buffer with less than one item for each pair is refused, and then the table and the numbers stay as they were. The
/// work area is all 0 at the end.
pub fn routes<N: Network>(
    net: &N,
    allowed: &mut [u8],
    numbers: &mut [u32],
    work: &mut [u32],
) -> Result<Routes, StudyFault>
    ensures routes { RoutesGive (N.meaning net.now) allowed.old numbers.old (length work.old) result allowed.new numbers.new }
    ensures cleared { AllZero work.new }
    ensures secret { Secret (Leaves (N.meaning net.now) allowed.old numbers.old) }
{
    let guard = Cleared { words: work };
    let pairs = pair_count(net);
    Buffer::Allowed.check(pairs, allowed.len())?;
    Buffer::Numbers.check(pairs, numbers.len())?;
    Buffer::Work.check(pairs, guard.words.len())?;
    trace(net, allowed, guard.words)?;
    let numbering = number(&Route { net }, allowed, numbers, guard.words)?;
    Ok(Routes {
        arriving: numbering.held == 0,
        held: numbering.held,
    })
}
