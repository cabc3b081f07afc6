//! The Spidergon's size and its limits.

ghost use Rattle.std.specs.Prelude.{◌≤◌};

/// A Spidergon: a ring of switches, each with a link to the one across. Channel 4 × s + k leaves switch s by its port k: the
/// local one, the one to the next switch, the one to the switch before, and the one across.
#[derive(Clone, Copy, PartialEq, Eq, Debug)]
pub struct Spidergon {
    // how many switches a quarter of the ring has
    pub(crate) size: u16,
    ghost some: { 1 ≤ size },
    ghost few: { size ≤ 64 },
}
