//! Pairs, and the ways of a pair one by one.

ghost use Rattle.std.specs.Prelude.{◌≡◌, ◌+◌, ◌*◌, ◌^◌, ◌<◌, drop};
ghost use Rattle.networks.specs.Allowed.{pairs, said, listed, must_move};
ghost use Rattle.std.specs.Iterator.{YieldsFirst, item_count};

use crate::Network;
use records::Size;
use std::marker::Model;

/// A packet for a place in a channel; both are numbered from 0.
#[derive(Clone, Copy, PartialEq, Eq, Debug)]
pub struct Pair {
    pub channel: u16,
    pub place: u16,
}

impl Pair {
    /// Where the pair stands in a table of all pairs, row by row.
    pub fn position(self, places: u16) -> usize
        ensures value { result ≡ self.channel * places + self.place }
        ensures bound { result < 2 ^ 32 }
    {
        usize::from(self.channel) * usize::from(places) + usize::from(self.place)
    }
}

/// How many pairs a network has.
pub fn pair_count<N: Network>(net: &N) -> usize
    ensures value { result ≡ pairs (N.meaning net.now) }
    ensures bound { result < 2 ^ 32 }
{
    let size = Size {
        channels: net.channels(),
        places: net.places(),
    };
    size.pairs()
}

// What a byte of a table of allowed pairs holds where the pair is allowed.
const ALLOWED: u8 = 1;

/// Whether a table of allowed pairs says that the pair is allowed. A byte that is missing counts as 0.
pub fn is_allowed<N: Network>(net: &N, table: &[u8], pair: Pair) -> bool
    ensures { result ≡ listed (N.meaning net.now) (said table.now) pair.channel pair.place }
{
    let places = net.places();
    pair.channel < net.channels()
        && pair.place < places
        && table.get(pair.position(places)) == Some(&ALLOWED)
}

/// Whether, by a table of allowed pairs, packets can come to be in the channel and then have to move on.
pub fn must_move<N: Network>(net: &N, table: &[u8], pair: Pair) -> bool
    ensures { result ≡ must_move (N.meaning net.now) (said table.now) pair.channel pair.place }
{
    is_allowed(net, table, pair) && !net.home(pair)
}

/// The ways of a pair that are still to come, seen as their list.
#[derive(Drop)]
pub struct Ways<'a, N: Network> {
    net: &'a N,
    pair: Pair,
    // how many were handed out
    passed: usize,
}

impl<'a, N: Network> Model for Ways<'a, N> {
    ghost use Rattle.std.specs.Prelude.{ℕ, List, drop};

    ghost Value = { List ℕ };

    ghost view = { λ s. drop s.passed ((N.meaning s.net.now).ways s.pair.channel s.pair.place) };
}

impl<'a, N: Network> Ways<'a, N> {
    /// All ways of the pair, in their order.
    pub fn new(net: &'a N, pair: Pair) -> Ways<'a, N>
        ensures { result ≡ (N.meaning net.now).ways pair.channel pair.place }
    {
        Ways {
            net,
            pair,
            passed: 0,
        }
    }
}

impl<'a, N: Network> Iterator for Ways<'a, N> {
    type Item = u16;

    ghost next_gives = { YieldsFirst (λ ways. ways) };

    ghost remaining = { item_count (λ ways. ways) };

    fn next(&mut self) -> Option<u16> {
        let way = self.net.way(self.pair, self.passed)?;
        self.passed += 1;
        Some(way)
    }
}
