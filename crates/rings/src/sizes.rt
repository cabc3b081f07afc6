//! What is told of Spidergons, size by size.

use crate::buffers::Buffers;
use crate::rule::{Rule, Step};
use crate::walks::walk;
use anyhow::{bail, ensure};
use checks::Check;
use loads::place_in;
use networks::Network;
use networks::pairs::Pair;
use spidergon::Spidergon;

// The largest size.
const LARGEST: u16 = 64;

// The Spidergon of eight switches, which is called Octagon.
const OCTAGON: u16 = 2;

// The places for which the blocked load of the Octagon has packets in the channels of switch 0.
const OCTAGON_PLACES: [u16; 4] = [1, 2, 6, 3];

// The walks of a size.
#[derive(Clone, Copy, Default)]
struct Tally {
    walks: u32,
    longest: u16,
    moves: u32,
}

impl Tally {
    fn with(self, moves: u16) -> Tally {
        Tally {
            walks: self.walks.saturating_add(1),
            longest: self.longest.max(moves),
            moves: self.moves.saturating_add(u32::from(moves)),
        }
    }
}

fn rule_of(size: u16) -> anyhow::Result<Rule> {
    let Some(rule) = Rule::new(size) else {
        bail!("no rule for size {size}");
    };
    Ok(rule)
}

// Walks from every switch to every switch. A walk is as long as a shortest route, and as the longest route of its first pair.
fn walk_all<N: Network>(
    rt: &HostRuntime,
    net: &N,
    rule: Rule,
    buffers: &mut Buffers,
) -> anyhow::Result<Tally> {
    let routes = buffers.routes(net)?;
    ensure!(routes.arriving, "arriving");
    let mut tally = Tally::default();
    for from in 0..net.places() {
        for to in 0..net.places() {
            let switches = walk(rt.alloc(), net, rule, from, to)?;
            let moves = switches.len().saturating_sub(1);
            let shortest = rule.distance(rule.ahead(from, to));
            ensure!(moves == usize::from(shortest), "a shortest route");
            let channel = Step::Off.channel(from);
            let pair = Pair { channel, place: to };
            let longest = buffers.numbers.get(pair.position(net.places()));
            ensure!(longest == Some(&u32::from(shortest)), "the longest route");
            tally = tally.with(shortest);
        }
    }
    Ok(tally)
}

fn tell_size(rt: &HostRuntime, size: u16) -> anyhow::Result<()> {
    let ring = Spidergon::new(size)?;
    let mut buffers = Buffers::new(rt.alloc(), &ring)?;
    let Check { verdict, numbering } = buffers.check(&ring)?;
    let held = if size == 1 {
        0
    } else {
        usize::from(ring.channels())
    };
    ensure!(
        numbering.held == held,
        "all channels are held, or none for size 1"
    );
    let Tally {
        walks,
        longest,
        moves,
    } = walk_all(rt, &ring, rule_of(size)?, &mut buffers)?;
    println!(rt;
        "spidergon {size}: {walks} walks by the rule, of {longest} moves at most, {moves} in all; {verdict}, {held} held"
    )?;
    Ok(())
}

/// Tells the walks of all sizes.
pub(super) fn tell_all(rt: &HostRuntime) -> anyhow::Result<()> {
    for size in 1..=LARGEST {
        tell_size(rt, size)?;
    }
    Ok(())
}

/// Tells the walks of the Octagon one by one, and compares its blocked load.
pub(super) fn tell_octagon(rt: &HostRuntime) -> anyhow::Result<()> {
    let ring = Spidergon::new(OCTAGON)?;
    let rule = rule_of(OCTAGON)?;
    for from in 0..ring.places() {
        print!(rt; "octagon, from {from}:")?;
        for to in 0..ring.places() {
            let switches = walk(rt.alloc(), &ring, rule, from, to)?;
            print!(rt; " {switches:?}")?;
        }
        println!(rt; "")?;
    }
    let mut buffers = Buffers::new(rt.alloc(), &ring)?;
    buffers.check(&ring)?;
    for (channel, place) in (0..).zip(OCTAGON_PLACES) {
        ensure!(
            place_in(buffers.load.as_slice(), channel) == Some(place),
            "the blocked load"
        );
    }
    Ok(())
}
