//! Calls on a load, and what they answer.

use loads::faults::LoadFault;
use loads::{LoadRecord, move_on, put, take};
use networks::Network;
use networks::pairs::Pair;
use records::faults::Fault;
use std::fmt;

/// A call on a load.
#[derive(Clone, Copy)]
pub enum Call {
    /// Into the channel a packet for the place.
    Put(u16, u16),
    /// The packet of the channel by the way at the position.
    MoveOn(u16, usize),
    /// The packet of the channel.
    Take(u16),
}

/// What a call answers.
#[derive(Clone, Copy)]
pub enum Answer {
    Accepted,
    /// A packet for the place is taken.
    Taken(u16),
    Refused(LoadFault),
}

impl Call {
    /// Makes the call.
    pub(super) fn make<N: Network>(self, net: &N, load: &mut [LoadRecord]) -> Answer {
        match self {
            Call::Put(channel, place) => Answer::of(put(net, load, Pair { channel, place })),
            Call::MoveOn(channel, position) => Answer::of(move_on(net, load, channel, position)),
            Call::Take(channel) => match take(net, load, channel) {
                Ok(place) => Answer::Taken(place),
                Err(fault) => Answer::Refused(fault),
            },
        }
    }
}

impl Answer {
    fn of(made: Result<(), LoadFault>) -> Answer {
        match made {
            Ok(()) => Answer::Accepted,
            Err(fault) => Answer::Refused(fault),
        }
    }

    /// The number of the refusal.
    pub(super) fn refusal(self) -> Option<u16> {
        match self {
            Answer::Refused(fault) => Some(fault.number()),
            Answer::Accepted | Answer::Taken(_) => None,
        }
    }

    /// What the answer adds to a checksum.
    pub(super) fn weight(self) -> u32 {
        match self {
            Answer::Accepted => 0,
            Answer::Taken(place) => 100 + u32::from(place),
            Answer::Refused(fault) => u32::from(fault.number()),
        }
    }
}

impl fmt::Display for Call {
    fn fmt<W: fmt::Write>(&self, f: &mut fmt::Formatter<W>) -> fmt::Result {
        match self {
            Call::Put(channel, place) => write!(f, "put {place} into {channel}"),
            Call::MoveOn(channel, position) => write!(f, "move on {channel} by {position}"),
            Call::Take(channel) => write!(f, "take {channel}"),
        }
    }
}

impl fmt::Display for Answer {
    fn fmt<W: fmt::Write>(&self, f: &mut fmt::Formatter<W>) -> fmt::Result {
        match self {
            Answer::Accepted => f.write_str("accepted"),
            Answer::Taken(place) => write!(f, "accepted, place {place}"),
            Answer::Refused(fault) => fault.fmt(f),
        }
    }
}
