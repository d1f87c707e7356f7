// A row's rules at the width that a number says, for a walk over rows that calls itself: were it generic,
// it would get no proof, since an answer for its own call would not count.
ghost use Rattle.std.specs.Prelude.{◌≡◌, ◌<◌, length};
ghost use Rattle.paper.specs.Columns.{vec};
ghost use Rattle.paper.specs.Words.{wide};
ghost use Rattle.paper.specs.Widths;
ghost use Rattle.paper.specs.Check.{sheet_fits};
ghost use Rattle.summary.specs.Sums.{said};
ghost use Rattle.layout.specs.FolderSums.{folder_by};

use paper::Clock;
use summary::Summary;
use vector::above::Above;
use vector::row::Narrow;
use vector::width::Width;

// A sheet's row fits, under what is above.
pub fn sheet_fits(r: &[u32], above: Above, columns: usize) -> bool
    requires width { Widths.Width columns }
    requires r_len { (length r.now ≡ wide columns) × (above.clock.device < columns) }
    ensures { result ≡ sheet_fits columns above.clock (vec above.floors.0) r.now }
{
    if columns == Narrow::COLUMNS {
        return crate::sheet_fits(r, above, Width::<8>::of());
    }
    crate::sheet_fits(r, above, Width::<16>::of())
}

// A folder's row fits, whose children come to `under`.
pub fn folder_fits(r: &[u32], clock: Clock, under: Option<Summary>, columns: usize) -> bool
    requires width { Widths.Width columns }
    requires r_len { (length r.now ≡ wide columns) × (clock.device < columns) }
    ensures { result ≡ folder_by columns clock r.now (said under) }
{
    if columns == Narrow::COLUMNS {
        return crate::folder_fits(r, clock, under, Width::<8>::of());
    }
    crate::folder_fits(r, clock, under, Width::<16>::of())
}
