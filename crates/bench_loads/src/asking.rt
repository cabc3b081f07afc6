//! The calls, made for a network.

ghost use Rattle.std.specs.Prelude.{◌≡◌, ℕ, ◌<◌, ◌≤◌, length, Some, slice_get};
ghost use Rattle.crossings.specs.Crossing.{record_of};
ghost use Rattle.crossings.specs.declared.Stand.{Stand};
ghost use Rattle.bench_loads.specs.Told.{DrainTold, LoadJudgeTold, PutEach, PutsTold};

use crate::answers::{DrainAnswer, JudgeAnswer, PutsAnswer};
use crossings::{PairWords, Stand, tell_stands};
use drains::drain;
use judges::judge_load;
use loads::{LoadRecord, put};
use networks::Network;
use networks::pairs::Pair;

// How many channels a network has at most.
const MAX_CHANNELS: usize = 1024;

// Writes the load that the stands tell.
fn write_load(stands: &[Stand], load: &mut [LoadRecord])
    requires { length load.old ≤ length stands.now }
    ensures { (k : ℕ) (s : Stand) → k < length load.new → slice_get stands.now k ≡ Some s → slice_get load.new k ≡ Some (record_of s) }
{
    for channel in 0..load.len() {
        load[channel] = stands[channel].record();
    }
}

// Drains the load that the stands tell, and tells what is left of it.
pub(crate) fn ask_drain<N: Network>(
    net: &N,
    allowed: &mut [u8],
    numbers: &mut [u32],
    stands: &mut [Stand],
    work: &mut [u32],
) -> DrainAnswer
    ensures { DrainTold (N.meaning net.now) allowed.old numbers.old stands.old work.old result allowed.new numbers.new stands.new work.new }
{
    let mut records = [LoadRecord::EMPTY; MAX_CHANNELS];
    let load = &mut records[..stands.len().min(MAX_CHANNELS)];
    write_load(stands, load);
    let given = drain(net, allowed, numbers, load, work);
    tell_stands(load, usize::from(net.channels()), stands);
    DrainAnswer::of(given)
}

// Judges the load that the stands tell.
pub(crate) fn ask_judge_load<N: Network>(
    net: &N,
    allowed: &mut [u8],
    stands: &[Stand],
    work: &mut [u32],
) -> JudgeAnswer
    ensures { LoadJudgeTold (N.meaning net.now) allowed.old stands.now work.old result allowed.new work.new }
{
    let mut records = [LoadRecord::EMPTY; MAX_CHANNELS];
    let load = &mut records[..stands.len().min(MAX_CHANNELS)];
    write_load(stands, load);
    JudgeAnswer::of_load(judge_load(net, allowed, load, work))
}

// Puts a packet for each pair, one after the other, into the load. Answers how many are accepted.
fn put_each<N: Network>(net: &N, pairs: &[PairWords], load: &mut [LoadRecord]) -> usize
    ensures { PutEach (N.meaning net.now) pairs.now load.old load.new result }
{
    let mut accepted = 0;
    for words in pairs {
        let pair = Pair {
            channel: words.channel,
            place: words.place,
        };
        if put(net, load, pair).is_ok() {
            accepted += 1;
        }
    }
    accepted
}

// Puts a packet for each pair, one after the other, into the load that the stands tell, and tells the load that there is then.
pub(crate) fn ask_puts<N: Network>(net: &N, pairs: &[PairWords], stands: &mut [Stand]) -> PutsAnswer
    ensures { PutsTold (N.meaning net.now) pairs.now stands.old result stands.new }
{
    let mut records = [LoadRecord::EMPTY; MAX_CHANNELS];
    let load = &mut records[..stands.len().min(MAX_CHANNELS)];
    write_load(stands, load);
    let accepted = put_each(net, pairs, load);
    tell_stands(load, usize::from(net.channels()), stands);
    PutsAnswer {
        answered: true,
        accepted,
    }
}
