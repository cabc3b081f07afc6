//! Walks packets from every switch to every other in Spidergons of all sizes, by the rule by which switches send them on, and compares
//! the walks with the longest routes; and checks these networks.

#![tactic(auto)]

mod buffers;
mod rule;
mod sizes;
mod walks;

fn run(rt: &HostRuntime) -> anyhow::Result<()> {
    sizes::tell_octagon(rt)?;
    sizes::tell_all(rt)
}

fn main(rt: HostRuntime) -> anyhow::Result<()> {
    run(&rt)
}
