//! The questions of a network, answered by a table's cells.

ghost use Rattle.std.specs.Prelude.{◌≡◌, ◌+◌, ◌*◌, ◌<◌, true, false, vec_len, MatchOption};
ghost use Rattle.tables.specs.Cells.{inside, cell_of};
ghost use Rattle.tables.specs.Meaning.{meaning_of, table_conditions};

use crate::cell::Cell;
use crate::table::Table;
use networks::Network;
use networks::pairs::Pair;

impl Table {
    // Where the cell of a pair stands.
    pub(super) fn position(&self, pair: Pair) -> usize
        requires channel { pair.channel < self.now.size.channels }
        requires place { pair.place < self.now.size.places }
        ensures value { result ≡ pair.channel * self.now.size.places + pair.place }
        ensures bound { result < vec_len self.now.cells }
    {
        pair.position(self.size.places)
    }

    // The cell of a pair, if it lies in the network.
    fn cell(&self, pair: Pair) -> Option<&Cell>
        ensures { MatchOption result
            (inside self.now.size.channels self.now.size.places pair.channel pair.place ≡ false)
            (λ x. (inside self.now.size.channels self.now.size.places pair.channel pair.place ≡ true) × (x.now ≡ cell_of self.now.size.places self.now.cells.items pair.channel pair.place)) }
    {
        if pair.channel >= self.size.channels || pair.place >= self.size.places {
            return None;
        }
        Some(&self.cells[self.position(pair)])
    }
}

impl Network for Table {
    ghost meaning = { meaning_of };

    ghost conditions = { table_conditions };

    fn channels(&self) -> u16 {
        self.size.channels
    }

    fn places(&self) -> u16 {
        self.size.places
    }

    fn entry(&self, pair: Pair) -> bool {
        self.cell(pair).is_some_and(|cell| cell.entry)
    }

    fn home(&self, pair: Pair) -> bool {
        self.cell(pair).is_some_and(|cell| cell.home)
    }

    fn way_count(&self, pair: Pair) -> usize {
        self.cell(pair).map_or(0, |cell| cell.ways.len())
    }

    fn way(&self, pair: Pair, position: usize) -> Option<u16> {
        self.cell(pair)?.ways.get(position)
    }
}
