//! Spidergons: rings of switches, each with a link to the one across.

#![tactic(auto)]

ghost use Rattle.std.specs.Prelude.{◌≡◌, ◌*◌, ◌<◌, [], ◌∷◌, if◌then◌else◌, nat_eq};
ghost use Rattle.networks.specs.Nets.{WayAt};
ghost use Rattle.spidergon.specs.Building.{Builds};
ghost use Rattle.spidergon.specs.Limits.{spidergon_conditions};
ghost use Rattle.spidergon.specs.Rings.{leads, relative, step, within, spidergon};

use networks::Network;
use networks::faults::StudyFault;
use networks::pairs::Pair;

mod ports;
mod ring;

use crate::ports::Port;
pub use crate::ring::Spidergon;

// The largest size: a network has at most 1024 channels and 256 places.
const MAX_SIZE: u16 = 64;

impl Spidergon {
    /// The Spidergon of 4 × `size` switches, for a size from 1 to 64. Every route through it is home within `size` moves past
    /// its entry, and some route takes so many.
    #[tactic(auto, using(crate::proofs::Routes::arrives, crate::proofs::Routes::no_fewer, crate::proofs::Arriving::by_routes))]
    pub fn new(size: u16) -> Result<Spidergon, StudyFault>
        ensures { Builds size result }
    {
        if !(1..=MAX_SIZE).contains(&size) {
            return Err(StudyFault::SpidergonSize);
        }
        Ok(Spidergon { size })
    }

    // Whether it has the pair.
    fn within(self, pair: Pair) -> bool
        ensures { result ≡ within self.size pair.channel pair.place }
    {
        pair.channel < 16 * self.size && pair.place < 4 * self.size
    }

    // The switch to which a channel leads.
    fn leads(self, channel: u16) -> u16
        requires { channel < 16 * self.size }
        ensures switch { result ≡ leads self.size channel }
        ensures below { result < 4 * self.size }
    {
        let switches = 4 * self.size;
        let switch = channel / 4;
        match Port::of(channel) {
            Port::Local => switch,
            Port::Next => (switch + 1) % switches,
            Port::Before => (switch + switches - 1) % switches,
            Port::Across => (switch + 2 * self.size) % switches,
        }
    }

    // How far a place lies ahead of a switch.
    #[tactic(auto, using(crate::proofs::Distances::at_place))]
    fn relative(self, switch: u16, place: u16) -> u16
        requires { (switch < 4 * self.size) × (place < 4 * self.size) }
        ensures ahead { result ≡ relative self.size switch place }
        ensures none_at_place { nat_eq switch place ≡ nat_eq result 0 }
    {
        let switches = 4 * self.size;
        (place + switches - switch) % switches
    }

    // The channel that a packet takes at a switch, by how far its place lies ahead. None where it is at its place.
    fn step(self, switch: u16, ahead: u16) -> Option<u16>
        requires { switch < 4 * self.size }
        ensures { WayAt (if nat_eq ahead 0 then [] else step self.size switch ahead ∷ []) 0 result }
    {
        match ahead {
            0 => None,
            r if r <= self.size => Some(Port::Next.channel(switch)),
            r if r >= 3 * self.size => Some(Port::Before.channel(switch)),
            _ => Some(Port::Across.channel(switch)),
        }
    }
}

impl Network for Spidergon {
    ghost meaning = { λ s. spidergon s.size };

    ghost conditions = { λ s. spidergon_conditions s.size s.some s.few };

    fn channels(&self) -> u16 {
        16 * self.size
    }

    fn places(&self) -> u16 {
        4 * self.size
    }

    fn entry(&self, pair: Pair) -> bool {
        self.within(pair) && Port::of(pair.channel) == Port::Local
    }

    fn home(&self, pair: Pair) -> bool {
        self.within(pair) && self.leads(pair.channel) == pair.place
    }

    fn way_count(&self, pair: Pair) -> usize {
        usize::from(self.within(pair) && self.leads(pair.channel) != pair.place)
    }

    fn way(&self, pair: Pair, position: usize) -> Option<u16> {
        if position > 0 || !self.within(pair) {
            return None;
        }
        let switch = self.leads(pair.channel);
        self.step(switch, self.relative(switch, pair.place))
    }
}
