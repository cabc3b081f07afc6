//! The search for the lowest pair that offends against a numbering's soundness.

ghost use Rattle.std.specs.Prelude.{◌≡◌, ℕ, ◌↔◌, slice_index, MatchOption, IsTrue};
ghost use Rattle.judges.specs.Judgements.{Lowest, NoSmaller};
ghost use Rattle.judges.specs.Searches.{TableOf, LowestPlace};

use networks::Network;
use networks::pairs::{Pair, Ways, must_move};

// The number of the channel. One that is missing counts as 0.
fn number_of(numbers: &[u32], channel: u16) -> u32
    ensures { result ≡ slice_index numbers.now channel }
{
    numbers.get(usize::from(channel)).copied().unwrap_or(0)
}

// Whether packets for the pair's place can come to be in its channel and then have to move on, but no way leads to a smaller number.
fn has_no_smaller<N: Network>(net: &N, allowed: &[u8], numbers: &[u32], pair: Pair) -> bool
    requires { TableOf (N.meaning net.now) allowed.now }
    ensures { IsTrue result ↔ NoSmaller (N.meaning net.now) (slice_index numbers.now) pair.channel pair.place }
{
    let own = number_of(numbers, pair.channel);
    must_move(net, allowed, pair) && Ways::new(net, pair).all(|way| number_of(numbers, way) >= own)
}

// The lowest place for which packets in the channel have no way to a smaller number and have to move on.
fn lowest_place<N: Network>(net: &N, allowed: &[u8], numbers: &[u32], channel: u16) -> Option<u16>
    requires { TableOf (N.meaning net.now) allowed.now }
    ensures { MatchOption result
        ((d : ℕ) → NoSmaller (N.meaning net.now) (slice_index numbers.now) channel d → ⊥)
        (LowestPlace (NoSmaller (N.meaning net.now) (slice_index numbers.now)) channel) }
{
    (0..net.places()).find(|place| {
        let pair = Pair {
            channel,
            place: *place,
        };
        has_no_smaller(net, allowed, numbers, pair)
    })
}

// The lowest channel with such a place, and the lowest such place of it.
pub(crate) fn lowest_need<N: Network>(net: &N, allowed: &[u8], numbers: &[u32]) -> Option<Pair>
    requires { TableOf (N.meaning net.now) allowed.now }
    ensures { MatchOption result
        ((c d : ℕ) → NoSmaller (N.meaning net.now) (slice_index numbers.now) c d → ⊥)
        (λ p. Lowest (NoSmaller (N.meaning net.now) (slice_index numbers.now)) p.channel p.place) }
{
    for channel in 0..net.channels() {
        if let Some(place) = lowest_place(net, allowed, numbers, channel) {
            return Some(Pair { channel, place });
        }
    }
    None
}
