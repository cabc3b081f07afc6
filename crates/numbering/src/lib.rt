//! Release systems, and the one numbering of their items.

#![tactic(auto)]

ghost use Rattle.std.specs.Prelude.{◌≡◌, ◌≤◌, ℕ, Bool};
ghost use Rattle.networks.specs.Allowed.{said};
ghost use Rattle.networks.specs.Nets.{WayAt};
ghost use Rattle.numbering.specs.Systems.{System, Conditions, no_label};

mod numbers;
mod rounds;
mod walks;
pub mod ways;

pub use crate::numbers::number;

/// The number that every held item gets.
pub const HELD: u32 = u32::MAX;

/// What numbering a release system answers.
#[derive(Clone, Copy, PartialEq, Eq, Debug)]
pub struct Numbering {
    /// The greatest number given to an item that is not held, or 0 where there is none.
    pub greatest: u32,
    /// How many items are held.
    pub held: usize,
}

/// What an item of a release system stands for.
#[derive(Clone, Copy, PartialEq, Eq, Debug)]
pub struct Label {
    pub channel: u16,
    pub place: Option<u16>,
}

impl Label {
    /// The label of an item out of range.
    pub const NONE: Label = Label {
        channel: 0,
        place: None,
    };
}

/// A release system. Items are numbered from 0, and so are the slots of each item. A slot is empty or holds a need, which is met
/// by any one of a list of items, its ways. The table of allowed pairs is handed along, and bytes that are missing count as 0.
/// A question changes nothing, never refuses and depends on the meaning only: an item or a slot out of range has no need, and an
/// item out of range has the label of channel 0 without a place.
pub trait ReleaseSystem {
    /// What the system is, by a table of allowed pairs.
    ghost meaning: { Self → (ℕ → Bool) → System };

    /// It keeps the limits of release systems.
    ghost conditions: { (x : Self) (allowed : ℕ → Bool) → Conditions (meaning x allowed) };

    fn items(&self) -> u32
        ensures { (allowed : ℕ → Bool) → result ≡ (meaning self.now allowed).items };

    fn slots(&self) -> u16
        ensures { (allowed : ℕ → Bool) → result ≡ (meaning self.now allowed).slots };

    /// Whether the slot of the item holds a need.
    fn need(&self, allowed: &[u8], item: u32, slot: u16) -> bool
        ensures { result ≡ (meaning self.now (said allowed.now)).need item slot };

    /// The way at a position from 0: the item that it leads to. None where there are no more ways.
    fn way(&self, allowed: &[u8], item: u32, slot: u16, position: usize) -> Option<u32>
        ensures { WayAt ((meaning self.now (said allowed.now)).ways item slot) position result };

    /// What the item stands for.
    fn label(&self, item: u32) -> Label
        ensures meant { (allowed : ℕ → Bool) → result ≡ (meaning self.now allowed).label item }
        ensures outside { (allowed : ℕ → Bool) → (meaning self.now allowed).items ≤ item → result ≡ no_label };
}
