//! The search for the lowest packet that offends against a load's being blocked.

ghost use Rattle.std.specs.Prelude.{◌≡◌, ℕ, ◌↔◌, MatchOption, IsTrue, Some};
ghost use Rattle.loads.specs.Loads.{At, Holds};
ghost use Rattle.judges.specs.Judgements.{Lowest, Loose};
ghost use Rattle.judges.specs.Searches.{TableOf};

use loads::{LoadRecord, place_in};
use networks::Network;
use networks::pairs::{Pair, Ways, is_allowed};

// Whether the pair's packet is not allowed, is home, or has a way to a channel without a packet.
fn is_loose<N: Network>(net: &N, allowed: &[u8], load: &[LoadRecord], pair: Pair) -> bool
    requires table { TableOf (N.meaning net.now) allowed.now }
    requires stands { At (N.meaning net.now) load.now pair.channel pair.place }
    ensures { IsTrue result ↔ Loose (N.meaning net.now) load.now pair.channel pair.place }
{
    !is_allowed(net, allowed, pair)
        || net.home(pair)
        || Ways::new(net, pair).any(|way| place_in(load, way).is_none())
}

// The packet of the lowest channel whose packet is not allowed, is home, or has a way to a channel without a packet.
pub(crate) fn lowest_loose<N: Network>(net: &N, allowed: &[u8], load: &[LoadRecord]) -> Option<Pair>
    requires { TableOf (N.meaning net.now) allowed.now }
    ensures { MatchOption result
        ((c d : ℕ) → Loose (N.meaning net.now) load.now c d → ⊥)
        (λ p. Lowest (Loose (N.meaning net.now) load.now) p.channel p.place) }
{
    for channel in 0..net.channels() {
        if let Some(place) = place_in(load, channel) {
            let pair = Pair { channel, place };
            if is_loose(net, allowed, load, pair) {
                return Some(pair);
            }
        }
    }
    None
}

// Whether some channel holds a packet.
pub(crate) fn has_packet<N: Network>(net: &N, load: &[LoadRecord]) -> bool
    ensures { IsTrue result ↔ ((c : ℕ) × Holds (N.meaning net.now) load.now c) }
{
    (0..net.channels()).any(|channel| place_in(load, channel).is_some())
}
