//! Packet networks: what they are, and the questions that every source of them answers.

#![tactic(auto)]

ghost use Rattle.std.specs.Prelude.{◌≡◌, length};
ghost use Rattle.networks.specs.Nets.{Net, Conditions, WayAt};

pub mod faults;
pub mod guard;
pub mod pairs;

use crate::pairs::Pair;

/// A packet network. A pair is a packet for `place` in `channel`; both are numbered from 0. A question changes nothing,
/// never refuses and depends on the meaning only: a channel or place out of range is no entry, is not home and has no ways.
pub trait Network {
    /// What the network is.
    ghost meaning: { Self → Net };

    /// It keeps the limits of networks.
    ghost conditions: { (x : Self) → Conditions (meaning x) };

    fn channels(&self) -> u16
        ensures { result ≡ (meaning self.now).channels };

    fn places(&self) -> u16
        ensures { result ≡ (meaning self.now).places };

    /// Whether packets for the place may be put into the channel.
    fn entry(&self, pair: Pair) -> bool
        ensures { result ≡ (meaning self.now).entry pair.channel pair.place };

    /// Whether packets for the place that are in the channel have arrived.
    fn home(&self, pair: Pair) -> bool
        ensures { result ≡ (meaning self.now).home pair.channel pair.place };

    /// How many ways lead on from the channel for packets to the place.
    fn way_count(&self, pair: Pair) -> usize
        ensures { result ≡ length ((meaning self.now).ways pair.channel pair.place) };

    /// The way at a position from 0: the channel that it leads to. None where there are no more ways.
    fn way(&self, pair: Pair, position: usize) -> Option<u16>
        ensures { WayAt ((meaning self.now).ways pair.channel pair.place) position result };
}
