//! Calls that are told one by one, with the load that each leaves.

use crate::buffers::load_of;
use crate::calls::Call::{self, MoveOn, Put, Take};
use crate::shown::Places;
use crate::small::{exit, in_part, own_way, way_out};
use networks::Network;
use spidergon::Spidergon;

// The greatest channel and place, and the greatest position.
const FAR: u16 = u16::MAX;

const FAR_ON: usize = usize::MAX;

// The places of the packets in a load, and the calls that are made on it.
#[derive(Clone, Copy)]
struct Journey {
    places: &'static [Option<u16>],
    calls: &'static [Call],
}

// Each kind of refusal but 20, and packets that come home.
const EXAMPLE: Journey = Journey {
    places: &[None, None, None],
    calls: &[
        Put(0, 1),
        Put(0, 1),
        Put(0, 0),
        Put(1, 0),
        MoveOn(0, 0),
        MoveOn(0, 1),
        MoveOn(1, 1),
        Take(1),
        MoveOn(1, 0),
        MoveOn(2, 0),
        Take(2),
        Take(0),
        Take(0),
    ],
};

// Channels, places and positions that there are not; and packets beyond the channels, which are not counted when one is put.
const OUTSIDE: Journey = Journey {
    places: &[None, None, None, Some(1), Some(0)],
    calls: &[
        Put(3, 1),
        Put(FAR, FAR),
        Put(0, 2),
        Put(2, FAR),
        Put(2, 1),
        Put(0, 1),
        MoveOn(3, 0),
        MoveOn(0, 2),
        MoveOn(0, FAR_ON),
        MoveOn(FAR, FAR_ON),
        Take(3),
        Take(FAR),
        Take(1),
        Put(1, 0),
    ],
};

// A full load, with a record beyond the channels; and then one that is full but for the last channel.
const FULL: Journey = Journey {
    places: &[Some(1), Some(0), Some(1), None],
    calls: &[
        Put(0, 1),
        Put(0, 0),
        Put(2, 1),
        MoveOn(0, 0),
        MoveOn(0, 1),
        MoveOn(2, 0),
        MoveOn(2, FAR_ON),
        Take(0),
        Take(2),
        Put(1, 0),
        MoveOn(0, 1),
    ],
};

// Fewer records than channels.
const SHORT: Journey = Journey {
    places: &[Some(1), Some(0)],
    calls: &[
        Put(0, 1),
        Put(FAR, FAR),
        MoveOn(0, 1),
        MoveOn(FAR, 0),
        Take(0),
        Take(2),
    ],
};

// Packets for places that there are not.
const STRANGE: Journey = Journey {
    places: &[Some(2), Some(FAR), None],
    calls: &[MoveOn(0, 0), Take(0), MoveOn(1, 0), Take(1), Put(0, 1)],
};

// A way back to the packet's own channel, and a home packet with a way.
const BACK: Journey = Journey {
    places: &[None, None],
    calls: &[
        Put(0, 0),
        MoveOn(0, 0),
        MoveOn(0, 1),
        MoveOn(1, 0),
        Put(0, 0),
        MoveOn(0, 1),
        Take(1),
        MoveOn(0, 1),
        Take(1),
        Put(0, 1),
        MoveOn(0, 0),
        Take(0),
    ],
};

// A packet that goes to and fro before it comes home.
const TO_AND_FRO: Journey = Journey {
    places: &[None, None, None],
    calls: &[Put(0, 0), MoveOn(0, 0), MoveOn(1, 0), MoveOn(0, 1), Take(2)],
};

// The packets of a blocked load.
const BLOCKED: Journey = Journey {
    places: &[Some(0), Some(1), None],
    calls: &[
        Put(0, 0),
        Put(0, 1),
        MoveOn(0, 0),
        MoveOn(0, 1),
        MoveOn(1, 0),
        Take(0),
        Take(1),
    ],
};

// Packets in a Spidergon of size 1.
const RING: Journey = Journey {
    places: &[None; 16],
    calls: &[
        Put(0, 2),
        Put(4, 1),
        Take(0),
        MoveOn(0, 0),
        Take(3),
        Take(4),
    ],
};

// Makes the calls, and tells each with its answer and the load that it leaves.
fn tell_calls<N: Network>(
    rt: &HostRuntime,
    name: &str,
    net: &N,
    journey: Journey,
) -> anyhow::Result<()> {
    let mut load = load_of(rt.alloc(), journey.places)?;
    println!(rt; "{name}:{}", Places(load.as_slice()))?;
    for call in journey.calls {
        let answer = call.make(net, load.as_mut_slice());
        println!(rt; "{name}, {call}: {answer};{}", Places(load.as_slice()))?;
    }
    Ok(())
}

/// Tells the calls.
pub(super) fn tell(rt: &HostRuntime) -> anyhow::Result<()> {
    let crossing = exit(rt.alloc())?;
    for journey in [EXAMPLE, OUTSIDE, FULL, SHORT, STRANGE] {
        tell_calls(rt, "crossing with an exit", &crossing, journey)?;
    }
    tell_calls(rt, "way to the own channel", &own_way(rt.alloc())?, BACK)?;
    tell_calls(rt, "loop with a way out", &way_out(rt.alloc())?, TO_AND_FRO)?;
    tell_calls(rt, "held in part", &in_part(rt.alloc())?, BLOCKED)?;
    tell_calls(rt, "spidergon 1", &Spidergon::new(1)?, RING)
}
