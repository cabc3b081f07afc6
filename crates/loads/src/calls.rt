//! The calls on a load: they change the lent records in place, and after a refusal all records are as they were.

ghost use Rattle.std.specs.Prelude.{◌≡◌, ◌<◌, ◌≤◌, ◌↔◌, length, MatchResult, IsTrue};
ghost use Rattle.loads.specs.Loads.{At};
ghost use Rattle.loads.specs.Calls.{packet_count, Puts, Moves, Takes, Only};
ghost use Rattle.loads.specs.Looking.{NoChannel, NoPacket};

use crate::faults::LoadFault;
use crate::{LoadRecord, place_in};
use networks::Network;
use networks::faults::Buffer;
use networks::pairs::Pair;

// Refuses a load that has too few records, and a channel that does not exist.
fn check_channel<N: Network>(net: &N, load: &[LoadRecord], channel: u16) -> Result<(), LoadFault>
    ensures { let n = N.meaning net.now in MatchResult result
        (λ _. (n.channels ≤ length load.now) × (channel < n.channels))
        (NoChannel n load.now channel) }
{
    let channels = net.channels();
    Buffer::Load.check(usize::from(channels), load.len())?;
    if channel >= channels {
        return Err(LoadFault::NoSuchChannel);
    }
    Ok(())
}

// Whether every channel holds a packet, by their count.
fn is_full<N: Network>(net: &N, load: &[LoadRecord]) -> bool
    requires records { (N.meaning net.now).channels ≤ length load.now }
    ensures { let n = N.meaning net.now in IsTrue result ↔ (packet_count n load.now ≡ n.channels) }
{
    let channels = net.channels();
    let mut packets = 0;
    for record in &load[..usize::from(channels)] {
        packets += u16::from(record.place().is_some());
    }
    packets == channels
}

// The packet that stands in a channel, as its pair.
fn packet_of<N: Network>(net: &N, load: &[LoadRecord], channel: u16) -> Result<Pair, LoadFault>
    ensures { let n = N.meaning net.now in MatchResult result
        (λ p. (n.channels ≤ length load.now) × (p.channel ≡ channel) × At n load.now channel p.place)
        (NoPacket n load.now channel) }
{
    check_channel(net, load, channel)?;
    let place = place_in(load, channel).ok_or(LoadFault::ChannelEmpty)?;
    Ok(Pair { channel, place })
}

/// Puts a packet for the pair's place into its channel. The pair has to be an entry and the channel empty; a load in which every
/// channel holds a packet is told by their count.
pub fn put<N: Network>(net: &N, load: &mut [LoadRecord], pair: Pair) -> Result<(), LoadFault>
    ensures { Only (Puts (N.meaning net.now) load.old pair.channel pair.place) result load.new }
{
    check_channel(net, load, pair.channel)?;
    if pair.place >= net.places() {
        return Err(LoadFault::NoSuchPlace);
    }
    if !net.entry(pair) {
        return Err(LoadFault::NoEntry);
    }
    if is_full(net, load) || place_in(load, pair.channel).is_some() {
        return Err(LoadFault::ChannelTaken);
    }
    load[usize::from(pair.channel)] = LoadRecord::holding(pair.place);
    Ok(())
}

/// Moves the packet of a channel on, by the way at a position from 0. It may not be home, and the channel that the way leads to has
/// to be empty; a way back to the packet's own channel is taken by the packet itself.
pub fn move_on<N: Network>(
    net: &N,
    load: &mut [LoadRecord],
    channel: u16,
    position: usize,
) -> Result<(), LoadFault>
    ensures { Only (Moves (N.meaning net.now) load.old channel position) result load.new }
{
    let pair = packet_of(net, load, channel)?;
    if net.home(pair) {
        return Err(LoadFault::Home);
    }
    let way = net.way(pair, position).ok_or(LoadFault::NoSuchWay)?;
    if place_in(load, way).is_some() {
        return Err(LoadFault::WayTaken);
    }
    load[usize::from(way)] = LoadRecord::holding(pair.place);
    load[usize::from(channel)] = LoadRecord::EMPTY;
    Ok(())
}

/// Takes the packet of a channel, which has to be home, and answers its place.
pub fn take<N: Network>(net: &N, load: &mut [LoadRecord], channel: u16) -> Result<u16, LoadFault>
    ensures { Only (Takes (N.meaning net.now) load.old channel) result load.new }
{
    let pair = packet_of(net, load, channel)?;
    if !net.home(pair) {
        return Err(LoadFault::NotHome);
    }
    load[usize::from(channel)] = LoadRecord::EMPTY;
    Ok(pair.place)
}
