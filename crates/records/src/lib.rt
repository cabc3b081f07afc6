//! What the lines of a network file say, how they are written, and their faults.

#![tactic(auto)]

ghost use Rattle.std.specs.Prelude.{◌≡◌, ◌*◌, ◌^◌, ◌<◌};

pub mod faults;
pub mod writing;

/// How many channels and places a network has.
#[derive(Clone, Copy, PartialEq, Eq, Debug)]
pub struct Size {
    pub channels: u16,
    pub places: u16,
}

impl Size {
    /// How many pairs of a channel and a place there are.
    pub fn pairs(self) -> usize
        ensures value { result ≡ self.channels * self.places }
        ensures bound { result < 2 ^ 32 }
    {
        usize::from(self.channels) * usize::from(self.places)
    }
}

/// One statement about the packets for a place in a channel.
#[derive(Clone, Copy, PartialEq, Eq, Debug)]
pub enum Record {
    /// They may be put into the channel.
    Entry { channel: u16, place: u16 },
    /// They have arrived.
    Home { channel: u16, place: u16 },
    /// They may move on to the channel `next`.
    Way { channel: u16, place: u16, next: u16 },
}
