//! The ways of a pair, as a table holds them.

ghost use Rattle.std.specs.Prelude.{◌≡◌, ◌<◌, ◌≤◌, [], ◌∷◌, ◌++◌, length, MatchOption};
ghost use Rattle.networks.specs.Nets.{WayAt, most_ways};

use std::marker::Model;

// How many ways a pair has at most.
const MAX_WAYS: usize = 8;

/// The ways of a pair in their order, seen as a list. Behind the first `count` the room is all 0.
#[derive(Clone, Copy, PartialEq, Eq, Debug)]
pub struct CellWays {
    count: u8,
    room: [u16; MAX_WAYS],
}

impl Model for CellWays {
    ghost use Rattle.std.specs.Prelude.{ℕ, List, length, take};
    ghost use Rattle.tables.specs.Filled.{Filled, room_of, same_count, same_room};

    ghost Value = { List ℕ };

    ghost view = { λ w. take w.count w.room };

    ghost invariant = { λ w. Filled w.count w.room };

    ghost inverse = { λ ways. record { count = length ways; room = room_of ways } };

    ghost inverse_ok = { λ w h i. record { count = same_count w.count w.room h i; room = same_room w.count w.room h i } };
}

impl CellWays {
    /// No ways.
    pub(super) const NONE: CellWays = CellWays {
        count: 0,
        room: [0; MAX_WAYS],
    };

    pub(super) fn len(&self) -> usize
        ensures { result ≡ length self.now }
    {
        usize::from(self.count)
    }

    /// The way at a position.
    pub(super) fn get(&self, position: usize) -> Option<u16>
        ensures { WayAt self.now position result }
    {
        self.room[..usize::from(self.count)].get(position).copied()
    }

    /// Puts one more way behind the others, if there is room for it.
    pub(super) fn try_push(&mut self, next: u16) -> Option<()>
        ensures { MatchOption result
            ((most_ways ≤ length self.old) × (self.new ≡ self.old))
            (λ _. (length self.old < most_ways) × (self.new ≡ self.old ++ (next ∷ []))) }
    {
        let count = usize::from(self.count);
        if count >= MAX_WAYS {
            return None;
        }
        self.room[count] = next;
        self.count += 1;
        Some(())
    }
}
