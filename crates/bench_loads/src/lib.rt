//! Draining, judging and putting packets on tables, for a program that is not Rattle, which compares the answers and their times with its
//! own. If there is no such table, the call is refused, and the buffers stay as they were.

#![tactic(auto)]

ghost use Rattle.std.specs.Prelude.{◌≡◌, ◌⊎◌};
ghost use Rattle.crossings.specs.Crossing.{Drawable, net_of};
ghost use Rattle.bench_loads.specs.Told.{DrainTold, DrainRefused, NumbersTold, LoadJudgeTold, JudgeRefused, PutsTold, PutsRefused};

pub mod answers;
mod asking;

use crate::answers::{DrainAnswer, JudgeAnswer, PutsAnswer};
use crate::asking::{ask_drain, ask_judge_load, ask_puts};
use crossings::{PairWords, Stand, WayWords, table_of};
use judges::judge_numbers;
use std::alloc::Global;

/// Drains the load that the stands tell, on a table.
#[unsafe(no_mangle)]
pub extern "C" fn bench_loads_drain(
    heap: Global,
    channels: u16,
    places: u16,
    entries: &[PairWords],
    homes: &[PairWords],
    ways: &[WayWords],
    allowed: &mut [u8],
    numbers: &mut [u32],
    stands: &mut [Stand],
    work: &mut [u32],
) -> DrainAnswer
    ensures { (Drawable channels places entries.now homes.now ways.now × DrainTold (net_of channels places entries.now homes.now ways.now) allowed.old numbers.old stands.old work.old result allowed.new numbers.new stands.new work.new)
        ⊎ DrainRefused allowed.old numbers.old stands.old work.old result allowed.new numbers.new stands.new work.new }
{
    match table_of(heap, channels, places, entries, homes, ways) {
        Some(net) => ask_drain(&net, allowed, numbers, stands, work),
        None => DrainAnswer::NONE,
    }
}

/// Judges whether the numbers of all channels of a table are sound.
#[unsafe(no_mangle)]
pub extern "C" fn bench_loads_judge_numbers(
    heap: Global,
    channels: u16,
    places: u16,
    entries: &[PairWords],
    homes: &[PairWords],
    ways: &[WayWords],
    allowed: &mut [u8],
    numbers: &[u32],
    work: &mut [u32],
) -> JudgeAnswer
    ensures { (Drawable channels places entries.now homes.now ways.now × NumbersTold (net_of channels places entries.now homes.now ways.now) allowed.old numbers.now work.old result allowed.new work.new)
        ⊎ JudgeRefused allowed.old work.old result allowed.new work.new }
{
    match table_of(heap, channels, places, entries, homes, ways) {
        Some(net) => JudgeAnswer::of_numbers(judge_numbers(&net, allowed, numbers, work)),
        None => JudgeAnswer::NONE,
    }
}

/// Judges whether the load that the stands tell is blocked on a table.
#[unsafe(no_mangle)]
pub extern "C" fn bench_loads_judge_load(
    heap: Global,
    channels: u16,
    places: u16,
    entries: &[PairWords],
    homes: &[PairWords],
    ways: &[WayWords],
    allowed: &mut [u8],
    stands: &[Stand],
    work: &mut [u32],
) -> JudgeAnswer
    ensures { (Drawable channels places entries.now homes.now ways.now × LoadJudgeTold (net_of channels places entries.now homes.now ways.now) allowed.old stands.now work.old result allowed.new work.new)
        ⊎ JudgeRefused allowed.old work.old result allowed.new work.new }
{
    match table_of(heap, channels, places, entries, homes, ways) {
        Some(net) => ask_judge_load(&net, allowed, stands, work),
        None => JudgeAnswer::NONE,
    }
}

/// Puts a packet for each pair, one after the other, into the load that the stands tell, on a table.
#[unsafe(no_mangle)]
pub extern "C" fn bench_loads_put(
    heap: Global,
    channels: u16,
    places: u16,
    entries: &[PairWords],
    homes: &[PairWords],
    ways: &[WayWords],
    pairs: &[PairWords],
    stands: &mut [Stand],
) -> PutsAnswer
    ensures { (Drawable channels places entries.now homes.now ways.now × PutsTold (net_of channels places entries.now homes.now ways.now) pairs.now stands.old result stands.new)
        ⊎ PutsRefused stands.old result stands.new }
{
    match table_of(heap, channels, places, entries, homes, ways) {
        Some(net) => ask_puts(&net, pairs, stands),
        None => PutsAnswer::NONE,
    }
}
