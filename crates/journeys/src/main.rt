//! Makes calls on the loads of networks, drains loads, and judges numbers and loads: some that are told one by one, and many that are
//! counted by their answers.

#![tactic(auto)]

mod buffers;
mod calls;
mod draws;
mod picked;
mod seeded;
mod shown;
mod small;
mod studied;
mod tally;

fn run(rt: &HostRuntime) -> anyhow::Result<()> {
    picked::tell(rt)?;
    studied::tell(rt)?;
    seeded::tell(rt)
}

fn main(rt: HostRuntime) -> anyhow::Result<()> {
    run(&rt)
}
