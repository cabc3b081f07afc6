//! The packets of a load of a free network, brought home one after the other.

ghost use Rattle.std.specs.Prelude.{◌≡◌, ℕ, ◌<◌, ◌≤◌, length, slice_index, MatchOption};
ghost use Rattle.networks.specs.Allowed.{Allowed};
ghost use Rattle.networks.specs.Nets.{Way};
ghost use Rattle.loads.specs.Loads.{At, AllowedLoad};
ghost use Rattle.certificates.specs.Promises.{Emptied};
ghost use Rattle.drains.specs.Orders.{First, FirstSmaller};
ghost use Rattle.drains.specs.Emptying.{Lowering, Called, Advanced, ClearedBefore, ClearedTo};

use loads::{LoadRecord, move_on, place_in, take};
use networks::Network;
use networks::pairs::Pair;

// A way of a pair: its position, and the channel that it leads to.
#[derive(Clone, Copy)]
struct Hop {
    position: usize,
    channel: u16,
}

// The pair's first way to a channel with a smaller number.
fn first_smaller<N: Network>(net: &N, numbers: &[u32], pair: Pair) -> Option<Hop>
    requires each { (N.meaning net.now).channels ≤ length numbers.now }
    requires channel { pair.channel < (N.meaning net.now).channels }
    ensures { let n = N.meaning net.now in MatchOption result
        ((h : ℕ) → Way n pair.channel pair.place h → slice_index numbers.now pair.channel ≤ slice_index numbers.now h)
        (λ hop. FirstSmaller n (slice_index numbers.now) pair.channel pair.place hop.position hop.channel) }
{
    let own = numbers[usize::from(pair.channel)];
    for position in 0..net.way_count(pair) {
        let channel = net.way(pair, position)?;
        if numbers[usize::from(channel)] < own {
            return Some(Hop { position, channel });
        }
    }
    None
}

// Makes the call that comes next: the first packet, which is that of the pair, is taken if it is home, and moves if it is not.
// Answers the channel to which it moved, or its own.
fn advance<N: Network>(net: &N, numbers: &[u32], load: &mut [LoadRecord], pair: Pair) -> u16
    requires lowering { Lowering (N.meaning net.now) numbers.now }
    requires records { (N.meaning net.now).channels ≤ length load.old }
    requires allowed { Allowed (N.meaning net.now) pair.channel pair.place }
    requires first { First (N.meaning net.now) (slice_index numbers.now) load.old pair.channel pair.place }
    ensures { Advanced (N.meaning net.now) (slice_index numbers.now) load.old pair.channel pair.place result load.new }
{
    if net.home(pair) {
        take(net, load, pair.channel).unwrap();
        return pair.channel;
    }
    let hop = first_smaller(net, numbers, pair).unwrap();
    move_on(net, load, pair.channel, hop.position).unwrap();
    hop.channel
}

// Brings the packet of a channel home, if there is one, where none stands in a channel that comes before. Answers how many calls that
// were.
fn bring_home<N: Network>(net: &N, numbers: &[u32], load: &mut [LoadRecord], channel: u16) -> usize
    requires lowering { Lowering (N.meaning net.now) numbers.now }
    requires records { (N.meaning net.now).channels ≤ length load.old }
    requires allowed { AllowedLoad (N.meaning net.now) load.old }
    requires channel { channel < (N.meaning net.now).channels }
    requires cleared { ClearedBefore (N.meaning net.now) (slice_index numbers.now) channel load.old }
    ensures called { Called (N.meaning net.now) (slice_index numbers.now) load.old load.new result }
    ensures cleared { ClearedTo (N.meaning net.now) (slice_index numbers.now) channel load.new }
{
    let mut here = channel;
    let mut calls = 0;
    while let Some(place) = place_in(load, here) {
        let pair = Pair {
            channel: here,
            place,
        };
        here = advance(net, numbers, load, pair);
        calls += 1;
    }
    calls
}

// Empties an allowed load of a free network. Answers how many calls that were.
pub(crate) fn empty<N: Network>(
    net: &N,
    numbers: &[u32],
    load: &mut [LoadRecord],
    greatest: u32,
) -> usize
    requires lowering { Lowering (N.meaning net.now) numbers.now }
    requires records { (N.meaning net.now).channels ≤ length load.old }
    requires allowed { AllowedLoad (N.meaning net.now) load.old }
    requires greatest { (c : ℕ) → c < (N.meaning net.now).channels → slice_index numbers.now c ≤ greatest }
    ensures called { Called (N.meaning net.now) (slice_index numbers.now) load.old load.new result }
    ensures emptied { Emptied (N.meaning net.now) load.new }
{
    let mut calls = 0;
    for number in 0..=greatest {
        for channel in 0..net.channels() {
            if numbers[usize::from(channel)] == number {
                calls += bring_home(net, numbers, load, channel);
            }
        }
    }
    calls
}
