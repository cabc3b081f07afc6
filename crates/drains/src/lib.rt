//! Draining: the packets of a load are brought home in a fixed order.

#![tactic(auto)]

ghost use Rattle.std.specs.Prelude.{◌≡◌, ◌<◌, ◌≤◌, ◌↔◌, length, IsTrue, ℕ, true};
ghost use Rattle.networks.specs.Cleared.{AllZero};
ghost use Rattle.networks.specs.Secrecy.{Secret};
ghost use Rattle.networks.specs.Allowed.{said, listed};
ghost use Rattle.loads.specs.Loads.{packet, At};
ghost use Rattle.drains.specs.Drains.{Drains, Leaves};
ghost use Rattle.drains.specs.Emptying.{may_stand};

mod emptying;
pub mod faults;

use crate::emptying::empty;
use crate::faults::DrainFault;
use escapes::Escape;
use loads::{LoadRecord, place_in};
use networks::Network;
use networks::faults::Buffer;
use networks::guard::Cleared;
use networks::pairs::{Pair, is_allowed, pair_count};
use numbering::number;
use tracing::trace;

// Whether, by the table of allowed pairs, the packet of a channel is allowed, if there is one.
fn may_stand<N: Network>(net: &N, allowed: &[u8], load: &[LoadRecord], channel: u16) -> bool
    ensures { result ≡ may_stand (N.meaning net.now) allowed.now channel (packet load.now channel) }
{
    place_in(load, channel).is_none_or(|place| is_allowed(net, allowed, Pair { channel, place }))
}

// Whether, by the table of allowed pairs, the pair of each packet is allowed.
fn is_allowed_load<N: Network>(net: &N, allowed: &[u8], load: &[LoadRecord]) -> bool
    ensures { let n = N.meaning net.now in IsTrue result ↔ ((c d : ℕ) → At n load.now c d → listed n (said allowed.now) c d ≡ true) }
{
    (0..net.channels()).all(|channel| may_stand(net, allowed, load, channel))
}

/// Drains an allowed load of a free network. Packets are brought home one after the other, in the order of their channels: by rising
/// number, then by rising channel. Each moves by its first way to a channel with a smaller number than its own until it is home, and
/// is taken. Answers how many moves and takes there were. The buffers are looked at first, in the order of their fields; after that
/// the table of allowed pairs and the numbers are filled, whatever is answered. After a refusal the load is as it was. The work area is
/// all 0 at the end.
pub fn drain<N: Network>(
    net: &N,
    allowed: &mut [u8],
    numbers: &mut [u32],
    load: &mut [LoadRecord],
    work: &mut [u32],
) -> Result<usize, DrainFault>
    ensures drains { Drains (N.meaning net.now) allowed.old numbers.old load.old (length work.old) result allowed.new numbers.new load.new }
    ensures cleared { AllZero work.new }
    ensures secret { Secret (Leaves (N.meaning net.now) allowed.old numbers.old load.old) }
{
    let guard = Cleared { words: work };
    let pairs = pair_count(net);
    let channels = usize::from(net.channels());
    Buffer::Allowed.check(pairs, allowed.len())?;
    Buffer::Numbers.check(channels, numbers.len())?;
    Buffer::Load.check(channels, load.len())?;
    Buffer::Work.check(pairs, guard.words.len())?;
    trace(net, allowed, guard.words)?;
    let numbering = number(&Escape { net }, allowed, numbers, guard.words)?;
    if numbering.held > 0 {
        return Err(DrainFault::Blocked);
    }
    if !is_allowed_load(net, allowed, load) {
        return Err(DrainFault::NotAllowed);
    }
    Ok(empty(net, numbers, load, numbering.greatest))
}
