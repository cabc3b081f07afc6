//! Checks networks and finds their longest routes: those of Spidergons, of small tables and of large ones, and with buffers of
//! several lengths.

#![tactic(auto)]

mod attempt;
mod buffers;
mod facts;
mod large;
mod rings;
mod small;

fn run(rt: &HostRuntime) -> anyhow::Result<()> {
    rings::tell(rt)?;
    small::tell(rt)?;
    large::tell(rt)?;
    buffers::vary(rt)
}

fn main(rt: HostRuntime) -> anyhow::Result<()> {
    run(&rt)
}
