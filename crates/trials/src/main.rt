//! Tries the sources of networks against one another and at their limits, and tracing with buffers of several lengths.

#![tactic(auto)]

mod attempt;
mod buffers;
mod failing;
mod limits;
mod sources;

use crate::failing::Failure;

fn run(rt: &HostRuntime) -> Result<(), Failure> {
    sources::tell_ways(rt)?;
    sources::compare(rt)?;
    limits::approach(rt)?;
    buffers::vary(rt)
}

fn main(rt: HostRuntime) -> Result<(), Failure> {
    run(&rt)
}
