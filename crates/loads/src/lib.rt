//! Loads of a network's channels, and the calls that put, move and take packets.

#![tactic(auto)]

ghost use Rattle.std.specs.Prelude.{◌≡◌, Some};
ghost use Rattle.loads.specs.Loads.{packet_in, packet};

mod calls;
pub mod faults;

pub use crate::calls::{move_on, put, take};

/// What stands in a channel: nothing, or a packet for a place. A load is a lent slice of records, one for each channel; those
/// past the count of channels are neither read nor written.
#[derive(Clone, Copy, PartialEq, Eq, Debug)]
pub struct LoadRecord {
    place: Option<u16>,
}

impl LoadRecord {
    /// Nothing.
    pub const EMPTY: LoadRecord = LoadRecord { place: None };

    /// A packet for the place.
    pub fn holding(place: u16) -> LoadRecord
        ensures { packet_in result ≡ Some place }
    {
        LoadRecord { place: Some(place) }
    }

    /// The place of the packet, if there is one.
    pub fn place(self) -> Option<u16>
        ensures { result ≡ packet_in self }
    {
        self.place
    }
}

/// The place of the packet that stands in a channel, if there is one. A record that is missing counts as empty.
pub fn place_in(load: &[LoadRecord], channel: u16) -> Option<u16>
    ensures { result ≡ packet load.now channel }
{
    load.get(usize::from(channel))?.place()
}
