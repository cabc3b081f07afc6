//! The check of a network: the verdict, and the blocked load that is written, which is called ours.

#![tactic(auto)]

ghost use Rattle.std.specs.Prelude.{◌≡◌, ℕ, ◌<◌, ◌≤◌, ◌↔◌, length, if◌then◌else◌, nat_eq, slice_get, slice_index, MatchOption, IsTrue};
ghost use Rattle.networks.specs.Allowed.{said};
ghost use Rattle.networks.specs.Cleared.{AllZero};
ghost use Rattle.networks.specs.Secrecy.{Secret};
ghost use Rattle.numbering.specs.Numbers.{AllNumbered, Below, held_number};
ghost use Rattle.escapes.specs.Escaping.{escape};
ghost use Rattle.loads.specs.Loads.{packet_in};
ghost use Rattle.checks.specs.Checks.{Shut, LowestShut, OurPacket, Ours, Checks, Leaves};

mod outcome;

pub use crate::outcome::{Check, Verdict};
use escapes::Escape;
use loads::LoadRecord;
use networks::Network;
use networks::faults::{Buffer, StudyFault};
use networks::guard::Cleared;
use networks::pairs::{Pair, Ways, must_move, pair_count};
use numbering::{HELD, number};
use tracing::trace;

// Whether the numbers say that the channel is held. A number that is missing counts as 0.
fn is_held(numbers: &[u32], channel: u16) -> bool
    ensures { result ≡ nat_eq (slice_index numbers.now channel) held_number }
{
    numbers.get(usize::from(channel)) == Some(&HELD)
}

// Whether the need that the pair's channel has for its place has only held ways.
fn is_shut<N: Network>(net: &N, allowed: &[u8], numbers: &[u32], pair: Pair) -> bool
    ensures { IsTrue result ↔ Shut (escape (N.meaning net.now) (said allowed.now)) (slice_index numbers.now) pair.channel pair.place }
{
    must_move(net, allowed, pair) && Ways::new(net, pair).all(|way| is_held(numbers, way))
}

// The lowest place whose need of the channel has only held ways.
fn lowest_shut<N: Network>(net: &N, allowed: &[u8], numbers: &[u32], channel: u16) -> Option<u16>
    ensures { MatchOption result
        ((d : ℕ) → Shut (escape (N.meaning net.now) (said allowed.now)) (slice_index numbers.now) channel d → ⊥)
        (LowestShut (escape (N.meaning net.now) (said allowed.now)) (slice_index numbers.now) channel) }
{
    (0..net.places()).find(|place| {
        let pair = Pair {
            channel,
            place: *place,
        };
        is_shut(net, allowed, numbers, pair)
    })
}

// What our load has in the channel.
fn our_record<N: Network>(net: &N, allowed: &[u8], numbers: &[u32], channel: u16) -> LoadRecord
    requires channel { channel < (N.meaning net.now).channels }
    requires numbered { AllNumbered (escape (N.meaning net.now) (said allowed.now)) (slice_index numbers.now) }
    requires below { Below (escape (N.meaning net.now) (said allowed.now)) (slice_index numbers.now) }
    ensures { OurPacket (escape (N.meaning net.now) (said allowed.now)) (slice_index numbers.now) channel (packet_in result) }
{
    if !is_held(numbers, channel) {
        return LoadRecord::EMPTY;
    }
    let place = lowest_shut(net, allowed, numbers, channel);
    place.map_or(LoadRecord::EMPTY, LoadRecord::holding)
}

// Writes our load.
fn write_load<N: Network>(net: &N, allowed: &[u8], numbers: &[u32], load: &mut [LoadRecord])
    requires records { (N.meaning net.now).channels ≤ length load.old }
    requires numbered { AllNumbered (escape (N.meaning net.now) (said allowed.now)) (slice_index numbers.now) }
    requires below { Below (escape (N.meaning net.now) (said allowed.now)) (slice_index numbers.now) }
    ensures ours { Ours (escape (N.meaning net.now) (said allowed.now)) (slice_index numbers.now) load.new }
    ensures beyond { (k : ℕ) → (N.meaning net.now).channels ≤ k → slice_get load.new k ≡ slice_get load.old k }
{
    for channel in 0..net.channels() {
        load[usize::from(channel)] = our_record(net, allowed, numbers, channel);
    }
}

// The verdict on a network with so many held channels.
fn verdict_on(held: usize) -> Verdict
    ensures { result ≡ (if nat_eq held 0 then Verdict.Free else Verdict.Blocked) }
{
    if held == 0 {
        Verdict::Free
    } else {
        Verdict::Blocked
    }
}

/// Checks a network: fills the table of allowed pairs, numbers the channels and writes our load. The buffers are checked first, in
/// the order of their fields, and after a refusal all but the work area are as they were. The work area is all 0 at the end.
pub fn check<N: Network>(
    net: &N,
    allowed: &mut [u8],
    numbers: &mut [u32],
    load: &mut [LoadRecord],
    work: &mut [u32],
) -> Result<Check, StudyFault>
    ensures checks { Checks (N.meaning net.now) allowed.old numbers.old load.old (length work.old) result allowed.new numbers.new load.new }
    ensures cleared { AllZero work.new }
    ensures secret { Secret (Leaves (N.meaning net.now) allowed.old numbers.old load.old) }
{
    let guard = Cleared { words: work };
    let pairs = pair_count(net);
    let channels = usize::from(net.channels());
    Buffer::Allowed.check(pairs, allowed.len())?;
    Buffer::Numbers.check(channels, numbers.len())?;
    Buffer::Load.check(channels, load.len())?;
    Buffer::Work.check(pairs, guard.words.len())?;
    trace(net, allowed, guard.words)?;
    // no more words than numbering needs, since it clears all that it is lent
    let list = &mut guard.words[..channels];
    let numbering = number(&Escape { net }, allowed, numbers, list)?;
    write_load(net, allowed, numbers, load);
    let verdict = verdict_on(numbering.held);
    Ok(Check { verdict, numbering })
}
