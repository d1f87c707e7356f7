// Summaries at the width that a number says, for a walk over rows that calls itself: were it generic,
// it would get no proof, since an answer for its own call would not count.
ghost use Rattle.std.specs.Prelude.{◌≡◌, ◌≤◌, length, drop};
ghost use Rattle.paper.specs.Order.{forest_of};
ghost use Rattle.paper.specs.Words.{wide};
ghost use Rattle.paper.specs.Widths;
ghost use Rattle.summary.specs.Sums.{said, stored, Siblings, mended};

use crate::Summary;
use vector::row::Narrow;
use vector::width::Width;

// Of siblings, by their rows alone; nothing where there are none.
pub fn of_rows(t: &[u32], columns: usize) -> Option<Summary>
    requires width { Widths.Width columns }
    requires siblings { Siblings columns t.now }
    ensures { said result ≡ stored columns (forest_of (wide columns) t.now) }
{
    if columns == Narrow::COLUMNS {
        return Summary::of_rows(t, Width::<8>::of());
    }
    Summary::of_rows(t, Width::<16>::of())
}

// Puts right the summaries in the row of a folder with these children.
pub fn mend(children: Option<Summary>, row: &mut [u32], columns: usize)
    requires width { Widths.Width columns }
    requires columns_in_bounds { wide columns ≤ length row.old }
    ensures { row.new ≡ mended columns (said children) row.old }
{
    if columns == Narrow::COLUMNS {
        Summary::mend(children, row, Width::<8>::of());
        return;
    }
    Summary::mend(children, row, Width::<16>::of());
}

// Puts the summaries of a folder right, by the rows of its children: all that stands after its own row.
pub fn mend_folder(t: &mut [u32], columns: usize)
    requires columns_in_bounds { (wide columns ≤ length t.old) × Widths.Width columns }
    requires siblings { Siblings columns (drop (wide columns) t.old) }
    ensures { t.new ≡ mended columns (stored columns (forest_of (wide columns) (drop (wide columns) t.old))) t.old }
{
    if columns == Narrow::COLUMNS {
        Summary::mend_folder(t, Width::<8>::of());
        return;
    }
    Summary::mend_folder(t, Width::<16>::of());
}
