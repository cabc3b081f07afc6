//! The escape system of a network: which channels packets have to leave, and by which ways.

#![tactic(auto)]

ghost use Rattle.std.specs.Prelude.{◌≡◌, ◌^◌, ◌≤◌, MatchOption};
ghost use Rattle.escapes.specs.Escaping.{escape, escape_conditions};

use networks::Network;
use networks::pairs::{Pair, must_move};
use numbering::{Label, ReleaseSystem};

/// The release system of a network's channels. An item is a channel and a slot is a place: it holds a need where packets for the
/// place can come to be in the channel and then have to move on, and the need's ways are those of the pair.
#[derive(Clone, Copy)]
pub struct Escape<'a, N: Network> {
    pub net: &'a N,
}

// The pair that a slot of an item stands for, if channels have such numbers.
fn pair_of(item: u32, slot: u16) -> Option<Pair>
    ensures { MatchOption result (2 ^ 16 ≤ item) (λ pair. (pair.channel ≡ item) × (pair.place ≡ slot)) }
{
    let channel = u16::try_from(item).ok()?;
    Some(Pair {
        channel,
        place: slot,
    })
}

impl<'a, N: Network> ReleaseSystem for Escape<'a, N> {
    ghost meaning = { λ e table. escape (N.meaning e.net.now) table };

    ghost conditions = { λ e table. escape_conditions (N.meaning e.net.now) table (N.conditions e.net.now) };

    fn items(&self) -> u32 {
        u32::from(self.net.channels())
    }

    fn slots(&self) -> u16 {
        self.net.places()
    }

    fn need(&self, allowed: &[u8], item: u32, slot: u16) -> bool {
        pair_of(item, slot).is_some_and(|pair| must_move(self.net, allowed, pair))
    }

    fn way(&self, _allowed: &[u8], item: u32, slot: u16, position: usize) -> Option<u32> {
        let pair = pair_of(item, slot)?;
        self.net.way(pair, position).map(u32::from)
    }

    fn label(&self, item: u32) -> Label {
        match u16::try_from(item) {
            Ok(channel) if channel < self.net.channels() => Label {
                channel,
                place: None,
            },
            _ => Label::NONE,
        }
    }
}
