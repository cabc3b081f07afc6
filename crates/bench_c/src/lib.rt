//! The calls of the other crates for a program that is not Rattle, which compares their answers and their times with its own.
//! A call asks its question `again` times more than once, and what it answers and leaves is as if it had asked once. If there is
//! no such network, the call is refused, and the buffers stay as they were.

#![tactic(auto)]

ghost use Rattle.std.specs.Prelude.{◌≡◌, ◌⊎◌, true};
ghost use Rattle.bench_c.specs.Told.{TraceTold, TraceRefused, CheckTold, CheckRefused, RoutesTold, RoutesRefused};
ghost use Rattle.crossings.specs.Crossing.{Drawable, net_of};
ghost use Rattle.spidergon.specs.Building.{Sized};
ghost use Rattle.spidergon.specs.Rings.{spidergon};

mod asking;
pub mod crossing;

use crate::asking::{ask_check, ask_routes, ask_trace};
use crate::crossing::{CheckAnswer, RoutesAnswer, TraceAnswer};
use crossings::{PairWords, Stand, WayWords, records_of, table_of};
use records::Size;
use spidergon::Spidergon;
use std::alloc::Global;
use tables::Table;

/// Traces a Spidergon.
#[unsafe(no_mangle)]
pub extern "C" fn bench_c_spidergon_trace(
    size: u16,
    again: u32,
    allowed: &mut [u8],
    work: &mut [u32],
) -> TraceAnswer
    ensures sized { Sized size → TraceTold (spidergon size) allowed.old work.old result allowed.new work.new }
    ensures other { (Sized size → ⊥) → TraceRefused allowed.old work.old result allowed.new work.new }
{
    match Spidergon::new(size) {
        Ok(net) => ask_trace(&net, again, allowed, work),
        Err(_) => TraceAnswer::REFUSED,
    }
}

/// Checks a Spidergon.
#[unsafe(no_mangle)]
pub extern "C" fn bench_c_spidergon_check(
    size: u16,
    again: u32,
    allowed: &mut [u8],
    numbers: &mut [u32],
    stands: &mut [Stand],
    work: &mut [u32],
) -> CheckAnswer
    ensures sized { Sized size → CheckTold (spidergon size) allowed.old numbers.old stands.old work.old result allowed.new numbers.new stands.new work.new }
    ensures other { (Sized size → ⊥) → CheckRefused allowed.old numbers.old stands.old work.old result allowed.new numbers.new stands.new work.new }
{
    match Spidergon::new(size) {
        Ok(net) => ask_check(&net, again, allowed, numbers, stands, work),
        Err(_) => CheckAnswer::REFUSED,
    }
}

/// Looks for the longest routes of a Spidergon.
#[unsafe(no_mangle)]
pub extern "C" fn bench_c_spidergon_routes(
    size: u16,
    again: u32,
    allowed: &mut [u8],
    numbers: &mut [u32],
    work: &mut [u32],
) -> RoutesAnswer
    ensures sized { Sized size → RoutesTold (spidergon size) allowed.old numbers.old work.old result allowed.new numbers.new work.new }
    ensures other { (Sized size → ⊥) → RoutesRefused allowed.old numbers.old work.old result allowed.new numbers.new work.new }
{
    match Spidergon::new(size) {
        Ok(net) => ask_routes(&net, again, allowed, numbers, work),
        Err(_) => RoutesAnswer::REFUSED,
    }
}

/// Makes a table `again` times more than once. Answers whether the last one was made: never one of records that make none.
#[unsafe(no_mangle)]
pub extern "C" fn bench_c_table_make(
    heap: Global,
    again: u32,
    channels: u16,
    places: u16,
    entries: &[PairWords],
    homes: &[PairWords],
    ways: &[WayWords],
) -> bool
    ensures { result ≡ true → Drawable channels places entries.now homes.now ways.now }
{
    let Ok(records) = records_of(heap, entries, homes, ways) else {
        return false;
    };
    let size = Size { channels, places };
    for _ in 0..again {
        let _ = Table::new(heap, size, &records);
    }
    Table::new(heap, size, &records).is_ok()
}

/// Traces a table.
#[unsafe(no_mangle)]
pub extern "C" fn bench_c_table_trace(
    heap: Global,
    again: u32,
    channels: u16,
    places: u16,
    entries: &[PairWords],
    homes: &[PairWords],
    ways: &[WayWords],
    allowed: &mut [u8],
    work: &mut [u32],
) -> TraceAnswer
    ensures { (Drawable channels places entries.now homes.now ways.now × TraceTold (net_of channels places entries.now homes.now ways.now) allowed.old work.old result allowed.new work.new)
        ⊎ TraceRefused allowed.old work.old result allowed.new work.new }
{
    match table_of(heap, channels, places, entries, homes, ways) {
        Some(net) => ask_trace(&net, again, allowed, work),
        None => TraceAnswer::REFUSED,
    }
}

/// Checks a table.
#[unsafe(no_mangle)]
pub extern "C" fn bench_c_table_check(
    heap: Global,
    again: u32,
    channels: u16,
    places: u16,
    entries: &[PairWords],
    homes: &[PairWords],
    ways: &[WayWords],
    allowed: &mut [u8],
    numbers: &mut [u32],
    stands: &mut [Stand],
    work: &mut [u32],
) -> CheckAnswer
    ensures { (Drawable channels places entries.now homes.now ways.now × CheckTold (net_of channels places entries.now homes.now ways.now) allowed.old numbers.old stands.old work.old result allowed.new numbers.new stands.new work.new)
        ⊎ CheckRefused allowed.old numbers.old stands.old work.old result allowed.new numbers.new stands.new work.new }
{
    match table_of(heap, channels, places, entries, homes, ways) {
        Some(net) => ask_check(&net, again, allowed, numbers, stands, work),
        None => CheckAnswer::REFUSED,
    }
}

/// Looks for the longest routes of a table.
#[unsafe(no_mangle)]
pub extern "C" fn bench_c_table_routes(
    heap: Global,
    again: u32,
    channels: u16,
    places: u16,
    entries: &[PairWords],
    homes: &[PairWords],
    ways: &[WayWords],
    allowed: &mut [u8],
    numbers: &mut [u32],
    work: &mut [u32],
) -> RoutesAnswer
    ensures { (Drawable channels places entries.now homes.now ways.now × RoutesTold (net_of channels places entries.now homes.now ways.now) allowed.old numbers.old work.old result allowed.new numbers.new work.new)
        ⊎ RoutesRefused allowed.old numbers.old work.old result allowed.new numbers.new work.new }
{
    match table_of(heap, channels, places, entries, homes, ways) {
        Some(net) => ask_routes(&net, again, allowed, numbers, work),
        None => RoutesAnswer::REFUSED,
    }
}
