//! A network that cells hold.

ghost use Rattle.std.specs.Prelude.{◌≡◌, ℕ, ◌*◌, ◌<◌, length, get_or, vec_len, slice_index_or};
ghost use Rattle.tables.specs.Cells.{blank, Sound};
ghost use Rattle.tables.specs.Sizes.{SizeFits};

use crate::cell::Cell;
use records::Size;

/// A network that was made from records. Its cells are cleared when it ends.
pub struct Table {
    pub(super) size: Size,
    // row by row: cell c * places + d is that of channel c and place d
    pub(super) cells: Vec<Cell>,
    ghost fits: { SizeFits size },
    ghost whole: { vec_len cells ≡ size.channels * size.places },
    ghost sound: { (k : ℕ) → k < vec_len cells → Sound size.channels (get_or cells.items k blank) },
}

// Sets every cell to one of which nothing is said.
fn clear(cells: &mut [Cell])
    ensures { (k : ℕ) → k < length cells.new → slice_index_or cells.new k blank ≡ blank }
{
    cells.fill(Cell::BLANK);
}

impl Drop for Table {
    fn drop(self) {
        let Table { size: _, mut cells } = self;
        clear(cells.as_mut_slice());
        drop(cells);
    }
}
