//! Calls and drains that are drawn, counted by their refusals.

use crate::buffers::{Buffers, NUMBER};
use crate::draws::{DENSE, Draws, SPARSE};
use crate::small::{exit, in_part, own_way, stairs, way_out};
use crate::tally::Tally;
use networks::Network;
use records::faults::Fault;
use spidergon::Spidergon;

const SEED: u32 = 2024;

const RUNS: usize = 60;

const CALLS: usize = 100;

// The channels and pairs of the largest network. All drains are lent buffers for so many.
const CHANNELS: usize = 32;

const PAIRS: usize = 256;

fn tell_calls<N: Network>(rt: &HostRuntime, name: &str, net: &N) -> anyhow::Result<()> {
    let mut draws = Draws::new(SEED);
    let mut tally = Tally::new(rt.alloc());
    for _ in 0..RUNS {
        let mut load = draws.load(rt.alloc(), net, SPARSE)?;
        for _ in 0..CALLS {
            let answer = draws.call(net).make(net, load.as_mut_slice());
            tally.add_call(answer.refusal(), answer.weight())?;
        }
        tally.add_load(load.as_slice());
    }
    print!(rt; "{name}, {RUNS} runs of {CALLS} calls")?;
    tally.tell(rt, &[30, 31, 32, 33, 34, 35, 36, 37, 38])
}

fn tell_drains<N: Network>(rt: &HostRuntime, name: &str, net: &N) -> anyhow::Result<()> {
    let mut draws = Draws::new(SEED);
    let mut tally = Tally::new(rt.alloc());
    let mut buffers = Buffers::new(rt.alloc(), PAIRS, &[NUMBER; CHANNELS], &[], PAIRS)?;
    for run in 0..RUNS {
        let is_dense = run % 2 == 1;
        let empty = if is_dense { DENSE } else { SPARSE };
        buffers.load = draws.load(rt.alloc(), net, empty)?;
        if is_dense {
            buffers.clear_strays(net);
        }
        match buffers.drain(net) {
            Ok(calls) => tally.add_call(None, u32::try_from(calls).unwrap_or(u32::MAX))?,
            Err(fault) => tally.add_call(Some(fault.number()), u32::from(fault.number()))?,
        }
        tally.add_load(buffers.load.as_slice());
        tally.add_numbers(buffers.numbers.as_slice());
    }
    print!(rt; "{name}, {RUNS} drains")?;
    tally.tell(rt, &[40, 41])
}

fn tell_network<N: Network>(rt: &HostRuntime, name: &str, net: &N) -> anyhow::Result<()> {
    tell_calls(rt, name, net)?;
    tell_drains(rt, name, net)
}

/// Tells how many of the calls and drains had which answer.
pub(super) fn tell(rt: &HostRuntime) -> anyhow::Result<()> {
    tell_network(rt, "crossing with an exit", &exit(rt.alloc())?)?;
    tell_network(rt, "loop with a way out", &way_out(rt.alloc())?)?;
    tell_network(rt, "held in part", &in_part(rt.alloc())?)?;
    tell_network(rt, "way to the own channel", &own_way(rt.alloc())?)?;
    tell_network(rt, "stairs", &stairs(rt.alloc())?)?;
    tell_network(rt, "spidergon 1", &Spidergon::new(1)?)?;
    tell_network(rt, "spidergon 2", &Spidergon::new(2)?)
}
