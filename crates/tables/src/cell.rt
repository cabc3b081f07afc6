//! What a table holds of a pair.

use crate::cell_ways::CellWays;

/// Whether the pair is an entry, whether it is home, and its ways.
#[derive(Clone, Copy, PartialEq, Eq, Debug)]
pub struct Cell {
    pub entry: bool,
    pub home: bool,
    pub ways: CellWays,
}

impl Cell {
    // A cell of which nothing is said.
    pub(super) const BLANK: Cell = Cell {
        entry: false,
        home: false,
        ways: CellWays::NONE,
    };
}
