//! Judges of numberings and of loads that others bring.

#![tactic(auto)]

ghost use Rattle.std.specs.Prelude.{length};
ghost use Rattle.networks.specs.Cleared.{AllZero};
ghost use Rattle.networks.specs.Secrecy.{Secret};
ghost use Rattle.judges.specs.Judges.{JudgesNumbers, JudgesLoad, LeavesOfNumbers, LeavesOfLoad};

mod needs;
mod packets;

use crate::needs::lowest_need;
use crate::packets::{has_packet, lowest_loose};
use loads::LoadRecord;
use networks::Network;
use networks::faults::{Buffer, StudyFault};
use networks::guard::Cleared;
use networks::pairs::{Pair, pair_count};
use tracing::trace;

/// What is said of a numbering of all channels.
#[derive(Clone, Copy, PartialEq, Eq, Debug)]
pub enum NumbersJudged {
    /// It is sound: each pair that packets can reach, and that is not home, has a way to a smaller number.
    Sound,
    /// It is not, and this is the lowest pair without such a way.
    Offends(Pair),
}

/// What is said of a load.
#[derive(Clone, Copy, PartialEq, Eq, Debug)]
pub enum LoadJudged {
    /// It is blocked: it has packets; each is allowed and not home, and each of its ways leads to a channel with a packet.
    Blocked,
    /// It is not: this is the lowest packet that is not allowed, is home, or has a way to a channel without a packet.
    Offends(Pair),
    /// It is not: it has no packet.
    NoPacket,
}

/// Judges whether a numbering of all channels is sound. It has a number for each channel; those beyond are not looked at. If it is not
/// sound, the answer has the lowest channel with a need that no way to a smaller number meets, and the lowest place of such needs.
/// The buffers are looked at first, in the order of their fields, and then the table of allowed pairs is filled; after a refusal it is as
/// it was. The work area is all 0 at the end.
pub fn judge_numbers<N: Network>(
    net: &N,
    allowed: &mut [u8],
    numbers: &[u32],
    work: &mut [u32],
) -> Result<NumbersJudged, StudyFault>
    ensures judges { JudgesNumbers (N.meaning net.now) allowed.old numbers.now (length work.old) result allowed.new }
    ensures cleared { AllZero work.new }
    ensures secret { Secret (LeavesOfNumbers (N.meaning net.now) allowed.old numbers.now) }
{
    let guard = Cleared { words: work };
    let pairs = pair_count(net);
    let channels = usize::from(net.channels());
    Buffer::Allowed.check(pairs, allowed.len())?;
    Buffer::Numbers.check(channels, numbers.len())?;
    Buffer::Work.check(pairs, guard.words.len())?;
    trace(net, allowed, guard.words)?;
    let lowest = lowest_need(net, allowed, numbers);
    Ok(lowest.map_or(NumbersJudged::Sound, NumbersJudged::Offends))
}

/// Judges whether a load is blocked. If it is not, the answer has the lowest channel with a packet that is not allowed, is home, or has
/// a way to a channel without a packet, and the place of that packet; or it says that there is no packet. The buffers are looked at first,
/// in the order of their fields, and then the table of allowed pairs is filled; after a refusal it is as it was. The work area is all 0
/// at the end.
pub fn judge_load<N: Network>(
    net: &N,
    allowed: &mut [u8],
    load: &[LoadRecord],
    work: &mut [u32],
) -> Result<LoadJudged, StudyFault>
    ensures judges { JudgesLoad (N.meaning net.now) allowed.old load.now (length work.old) result allowed.new }
    ensures cleared { AllZero work.new }
    ensures secret { Secret (LeavesOfLoad (N.meaning net.now) allowed.old load.now) }
{
    let guard = Cleared { words: work };
    let pairs = pair_count(net);
    let channels = usize::from(net.channels());
    Buffer::Allowed.check(pairs, allowed.len())?;
    Buffer::Load.check(channels, load.len())?;
    Buffer::Work.check(pairs, guard.words.len())?;
    trace(net, allowed, guard.words)?;
    if let Some(pair) = lowest_loose(net, allowed, load) {
        return Ok(LoadJudged::Offends(pair));
    }
    if has_packet(net, load) {
        return Ok(LoadJudged::Blocked);
    }
    Ok(LoadJudged::NoPacket)
}
