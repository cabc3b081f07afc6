//! The numbers and the loads that are judged.

use crate::buffers::Buffers;
use loads::LoadRecord;
use networks::Network;
use networks::pairs::{Pair, is_allowed};
use std::fmt;

/// Numbers of the channels.
#[derive(Clone, Copy)]
pub enum Numbering {
    /// Those that check writes.
    Own,
    /// The same, with the first of the greatest ones of channels that are not held lowered by 1, unless they are 0.
    Lowered,
    /// The channels in their order.
    Rising,
    /// The channels from the last to the first.
    Falling,
}

/// Loads, each with records for the channels alone.
#[derive(Clone, Copy)]
pub enum Load {
    /// The blocked load that check writes.
    Own,
    /// The same without the packet of the lowest channel that has one.
    LessFirst,
    /// In each channel a packet for the lowest place that is allowed there, if there is one.
    Lowest,
    /// The same with the highest place.
    Highest,
    /// The lowest places again, in channels 0, 2, 4 and so on alone.
    EverySecond,
    /// In each channel a packet for place 0, be it allowed there or not.
    PlaceZero,
}

/// All numberings and loads, in the order in which they are judged: those that are made of what check writes come first.
pub const NUMBERINGS: [Numbering; 4] = [
    Numbering::Own,
    Numbering::Lowered,
    Numbering::Rising,
    Numbering::Falling,
];

pub const LOADS: [Load; 6] = [
    Load::Own,
    Load::LessFirst,
    Load::Lowest,
    Load::Highest,
    Load::EverySecond,
    Load::PlaceZero,
];

impl Buffers {
    // Lowers the first of the numbers that are the greatest.
    fn lower(&mut self, greatest: u32) {
        for number in &mut self.numbers {
            if *number == greatest {
                *number = greatest.saturating_sub(1);
                return;
            }
        }
    }

    fn number_up(&mut self) {
        let mut next = 0u32;
        for number in &mut self.numbers {
            *number = next;
            next = next.saturating_add(1);
        }
    }

    fn number_down<N: Network>(&mut self, net: &N) {
        let mut left = u32::from(net.channels());
        for number in &mut self.numbers {
            left = left.saturating_sub(1);
            *number = left;
        }
    }

    /// Writes the numbers, where those of check stand, of which this is the greatest.
    pub(super) fn renumber<N: Network>(&mut self, net: &N, numbering: Numbering, greatest: u32) {
        match numbering {
            Numbering::Own => {}
            Numbering::Lowered => self.lower(greatest),
            Numbering::Rising => self.number_up(),
            Numbering::Falling => self.number_down(net),
        }
    }

    fn take_first(&mut self) {
        for record in &mut self.load {
            if record.place().is_some() {
                *record = LoadRecord::EMPTY;
                return;
            }
        }
    }

    // The place of the packet that a load has in a channel.
    fn pick<N: Network>(&self, net: &N, load: Load, channel: u16) -> Option<u16> {
        let mut allowed = (0..net.places()).filter(|place| {
            let place = *place;
            is_allowed(net, self.table.as_slice(), Pair { channel, place })
        });
        match load {
            Load::Own | Load::LessFirst => None,
            Load::Lowest => allowed.next(),
            Load::Highest => allowed.last(),
            Load::EverySecond if channel % 2 == 1 => None,
            Load::EverySecond => allowed.next(),
            Load::PlaceZero => Some(0),
        }
    }

    fn fill<N: Network>(&mut self, net: &N, load: Load) {
        for channel in 0..net.channels() {
            let place = self.pick(net, load, channel);
            if let Some(record) = self.load.get_mut(usize::from(channel)) {
                *record = place.map_or(LoadRecord::EMPTY, LoadRecord::holding);
            }
        }
    }

    /// Writes the load, where that of check stands.
    pub(super) fn reload<N: Network>(&mut self, net: &N, load: Load) {
        match load {
            Load::Own => {}
            Load::LessFirst => self.take_first(),
            other => self.fill(net, other),
        }
    }
}

impl fmt::Display for Numbering {
    fn fmt<W: fmt::Write>(&self, f: &mut fmt::Formatter<W>) -> fmt::Result {
        f.write_str(match self {
            Numbering::Own => "own",
            Numbering::Lowered => "own, the first greatest lowered",
            Numbering::Rising => "rising",
            Numbering::Falling => "falling",
        })
    }
}

impl fmt::Display for Load {
    fn fmt<W: fmt::Write>(&self, f: &mut fmt::Formatter<W>) -> fmt::Result {
        f.write_str(match self {
            Load::Own => "own",
            Load::LessFirst => "own less its first packet",
            Load::Lowest => "lowest places",
            Load::Highest => "highest places",
            Load::EverySecond => "lowest places in every second channel",
            Load::PlaceZero => "place 0 in each channel",
        })
    }
}
