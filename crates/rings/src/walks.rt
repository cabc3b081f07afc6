//! Walks of single packets.

use crate::rule::{Rule, Step};
use anyhow::{bail, ensure};
use networks::Network;
use networks::pairs::Pair;
use std::alloc::Global;

/// The switches at which a packet comes by on its way from one to another, both among them. Each of its moves has to be the only one that
/// the network has for it, and the one of the rule; no channel is passed twice; and there are no more moves than the rule says.
pub(super) fn walk<N: Network>(
    heap: Global,
    net: &N,
    rule: Rule,
    from: u16,
    to: u16,
) -> anyhow::Result<Vec<u16>> {
    let mut switches = Vec::new(heap);
    let mut passed = Vec::new(heap);
    let mut switch = from;
    let mut channel = Step::Off.channel(from);
    for _ in 0..=rule.most_moves() {
        switches.push(switch)?;
        passed.push(channel)?;
        let pair = Pair { channel, place: to };
        let step = rule.step(rule.ahead(switch, to));
        if step == Step::Off {
            ensure!(net.home(pair), "home at its switch");
            return Ok(switches);
        }
        ensure!(!net.home(pair) && net.way_count(pair) == 1, "one way on");
        channel = step.channel(switch);
        ensure!(net.way(pair, 0) == Some(channel), "the way of the rule");
        ensure!(!passed.as_slice().contains(&channel), "no channel twice");
        switch = rule.after(switch, step);
    }
    bail!("more moves than the rule says")
}
