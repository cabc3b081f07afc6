//! Certificates of networks: the verdict with its numbers or its blocked load, the longest routes, and what these promise of packets
//! that are put, moved and taken.

#![tactic(auto)]

ghost use Rattle.std.specs.Prelude.{length};
ghost use Rattle.networks.specs.Cleared.{AllZero};
ghost use Rattle.networks.specs.Secrecy.{Secret};
ghost use Rattle.certificates.specs.Certificates.{Certifies, Leaves};

pub mod lanes;

use checks::{Check, check};
use loads::LoadRecord;
use networks::Network;
use networks::faults::{Buffer, StudyFault};
use networks::guard::Cleared;
use networks::pairs::pair_count;
use routes::{Routes, routes};

/// What is found of a network.
#[derive(Clone, Copy, PartialEq, Eq, Debug)]
pub struct Certificate {
    pub check: Check,
    pub routes: Routes,
}

/// Certifies a network: checks it, as [`check`] does, and finds its longest routes, as [`routes`] does. What the verdict, the
/// numbers, the load and the routes promise of packets is part of the contract. The buffers are looked at first, in the order of
/// their fields, and after a refusal all but the work area are as they were. The work area is all 0 at the end.
pub fn certify<N: Network>(
    net: &N,
    allowed: &mut [u8],
    numbers: &mut [u32],
    load: &mut [LoadRecord],
    longest: &mut [u32],
    work: &mut [u32],
) -> Result<Certificate, StudyFault>
    ensures certifies { Certifies (N.meaning net.now) allowed.old numbers.old load.old longest.old (length work.old) result allowed.new numbers.new load.new longest.new }
    ensures cleared { AllZero work.new }
    ensures secret { Secret (Leaves (N.meaning net.now) allowed.old numbers.old load.old longest.old) }
{
    let guard = Cleared { words: work };
    let pairs = pair_count(net);
    let channels = usize::from(net.channels());
    Buffer::Allowed.check(pairs, allowed.len())?;
    Buffer::Numbers.check(channels, numbers.len())?;
    Buffer::Numbers.check(pairs, longest.len())?;
    Buffer::Load.check(channels, load.len())?;
    Buffer::Work.check(pairs, guard.words.len())?;
    let check = check(net, allowed, numbers, load, guard.words)?;
    let routes = routes(net, allowed, longest, guard.words)?;
    Ok(Certificate { check, routes })
}
