//! What is asked about one network, told line by line.

use crate::buffers::Buffers;
use crate::judged::{LOADS, Load, NUMBERINGS};
use crate::shown::{Numbers, Places};
use checks::Check;
use networks::Network;
use numbering::Numbering;
use routes::Routes;

// Checks the network, and answers the greatest number.
fn tell_check<N: Network>(rt: &HostRuntime, net: &N, buffers: &mut Buffers) -> anyhow::Result<u32> {
    let Check { verdict, numbering } = buffers.check(net)?;
    let Numbering { greatest, held } = numbering;
    println!(rt; "check: {verdict}, greatest number {greatest}, {held} held")?;
    let numbers = Numbers(buffers.numbers.as_slice());
    let places = Places(buffers.load.as_slice());
    println!(rt; "numbers:{numbers}\nblocked load:{places}")?;
    Ok(greatest)
}

// Judges the numbers of check, of which this is the greatest, and other ones.
fn tell_numberings<N: Network>(
    rt: &HostRuntime,
    net: &N,
    buffers: &mut Buffers,
    greatest: u32,
) -> anyhow::Result<()> {
    for numbering in NUMBERINGS {
        buffers.renumber(net, numbering, greatest);
        let judged = buffers.judge_numbers(net)?;
        println!(rt; "numbers, {numbering}: {judged}")?;
    }
    Ok(())
}

// Judges and drains a load.
fn tell_load<N: Network>(
    rt: &HostRuntime,
    net: &N,
    buffers: &mut Buffers,
    load: Load,
) -> anyhow::Result<()> {
    buffers.reload(net, load);
    let judged = buffers.judge_load(net)?;
    print!(rt; "load, {load}: {judged}; drain: ")?;
    match buffers.drain(net) {
        Ok(calls) => println!(rt; "{calls} moves and takes")?,
        Err(fault) => println!(rt; "{fault}")?,
    }
    Ok(())
}

fn tell_routes<N: Network>(rt: &HostRuntime, net: &N, buffers: &mut Buffers) -> anyhow::Result<()> {
    let Routes { arriving, held } = buffers.routes(net)?;
    let word = if arriving { "arriving" } else { "not arriving" };
    let numbers = Numbers(buffers.pair_numbers.as_slice());
    println!(rt; "routes: {word}, {held} held\nnumbers of the pairs:{numbers}")?;
    Ok(())
}

/// Tells the answers about a network.
pub(super) fn survey<N: Network>(rt: &HostRuntime, net: &N) -> anyhow::Result<()> {
    let mut buffers = Buffers::new(rt.alloc(), net)?;
    let greatest = tell_check(rt, net, &mut buffers)?;
    tell_numberings(rt, net, &mut buffers, greatest)?;
    for load in LOADS {
        tell_load(rt, net, &mut buffers, load)?;
    }
    tell_routes(rt, net, &mut buffers)
}
