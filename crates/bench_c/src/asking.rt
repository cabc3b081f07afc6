//! The questions, asked of any network.

ghost use Rattle.std.specs.Prelude.{◌≡◌, ◌≤◌, ⊤, length, MatchResult};
ghost use Rattle.bench_c.specs.Told.{TraceTold, CheckTold, RoutesTold, Stands};

use crate::crossing::{CheckAnswer, RoutesAnswer, TraceAnswer};
use checks::{Check, check};
use crossings::{Stand, tell_stands};
use loads::LoadRecord;
use networks::Network;
use networks::faults::StudyFault;
use routes::routes;
use tracing::trace;

// How many channels a network has at most.
const MAX_CHANNELS: usize = 1024;

// Traces the network, `again` times more than once.
#[tactic(auto, using(crate::proofs::Again::trace_again))]
pub(crate) fn ask_trace<N: Network>(
    net: &N,
    again: u32,
    allowed: &mut [u8],
    work: &mut [u32],
) -> TraceAnswer
    ensures { TraceTold (N.meaning net.now) allowed.old work.old result allowed.new work.new }
{
    let mut given = trace(net, allowed, work);
    for _ in 0..again {
        given = trace(net, allowed, work);
    }
    TraceAnswer::of(given)
}

// Tells what the load of a check has in the channels. A refused one tells nothing.
fn tell_load(
    given: Result<Check, StudyFault>,
    load: &[LoadRecord],
    channels: usize,
    stands: &mut [Stand],
)
    requires records { MatchResult given (λ _. channels ≤ length load.now) (λ _. ⊤) }
    requires stands { MatchResult given (λ _. channels ≤ length stands.old) (λ _. ⊤) }
    ensures { Stands channels given load.now stands.old stands.new }
{
    if given.is_ok() {
        tell_stands(load, channels, stands);
    }
}

// Checks the network, `again` times more than once.
#[tactic(auto, using(crate::proofs::Again::load_suffices))]
pub(crate) fn ask_check<N: Network>(
    net: &N,
    again: u32,
    allowed: &mut [u8],
    numbers: &mut [u32],
    stands: &mut [Stand],
    work: &mut [u32],
) -> CheckAnswer
    ensures { CheckTold (N.meaning net.now) allowed.old numbers.old stands.old work.old result allowed.new numbers.new stands.new work.new }
{
    let mut records = [LoadRecord::EMPTY; MAX_CHANNELS];
    let load = &mut records[..stands.len().min(MAX_CHANNELS)];
    let mut given = check(net, allowed, numbers, load, work);
    for _ in 0..again {
        given = check(net, allowed, numbers, load, work);
    }
    tell_load(given, load, usize::from(net.channels()), stands);
    CheckAnswer::of(given)
}

// Looks for the longest routes, `again` times more than once.
pub(crate) fn ask_routes<N: Network>(
    net: &N,
    again: u32,
    allowed: &mut [u8],
    numbers: &mut [u32],
    work: &mut [u32],
) -> RoutesAnswer
    ensures { RoutesTold (N.meaning net.now) allowed.old numbers.old work.old result allowed.new numbers.new work.new }
{
    let mut given = routes(net, allowed, numbers, work);
    for _ in 0..again {
        given = routes(net, allowed, numbers, work);
    }
    RoutesAnswer::of(given)
}
