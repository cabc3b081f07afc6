//! The ways of a need one by one.

ghost use Rattle.std.specs.Prelude.{◌≡◌, ◌<◌, ◌≤◌, ℕ, length, slice_index};
ghost use Rattle.std.specs.Iterator.{YieldsFirst, item_count};
ghost use Rattle.networks.specs.Allowed.{said};
ghost use Rattle.networks.specs.Nets.{most_ways};

use crate::ReleaseSystem;
use std::marker::Model;

/// The ways of a need that are still to come, seen as their list.
#[derive(Drop)]
pub struct NeedWays<'a, S: ReleaseSystem> {
    system: &'a S,
    allowed: &'a [u8],
    item: u32,
    slot: u16,
    // how many were handed out
    passed: usize,
}

impl<'a, S: ReleaseSystem> Model for NeedWays<'a, S> {
    ghost use Rattle.std.specs.Prelude.{ℕ, List, drop};
    ghost use Rattle.networks.specs.Allowed.{said};
    ghost use Rattle.networks.specs.Nets.{most_ways};

    ghost Value = { List ℕ };

    ghost view = { λ s. drop s.passed ((S.meaning s.system.now (said s.allowed.now)).ways s.item s.slot) };
}

impl<'a, S: ReleaseSystem> NeedWays<'a, S> {
    /// All ways of the need at a slot of an item, in their order: at most 8 of the system's items.
    pub fn new(system: &'a S, allowed: &'a [u8], item: u32, slot: u16) -> NeedWays<'a, S>
        ensures ways { result ≡ (S.meaning system.now (said allowed.now)).ways item slot }
        ensures few { length result ≤ most_ways }
        ensures inside { (k : ℕ) → k < length result → slice_index result k < (S.meaning system.now (said allowed.now)).items }
    {
        NeedWays {
            system,
            allowed,
            item,
            slot,
            passed: 0,
        }
    }
}

impl<'a, S: ReleaseSystem> Iterator for NeedWays<'a, S> {
    type Item = u32;

    ghost next_gives = { YieldsFirst (λ ways. ways) };

    ghost remaining = { item_count (λ ways. ways) };

    fn next(&mut self) -> Option<u32> {
        let way = self
            .system
            .way(self.allowed, self.item, self.slot, self.passed)?;
        self.passed += 1;
        Some(way)
    }
}
