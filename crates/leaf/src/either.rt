// The leaves at the width that a number says, for a walk that calls itself: were it generic,
// it would get no proof, since an answer for its own call would not count.
ghost use Rattle.std.specs.Prelude.{◌≡◌, ◌*◌, length};
ghost use Rattle.paper.specs.Columns.{vec};
ghost use Rattle.paper.specs.Words.{wide};
ghost use Rattle.paper.specs.Widths;
ghost use Rattle.leaf.specs.Leaves.{Rows, SheetDone, OverDone, over_rows, over_row};

use crate::{folder, single};
use vector::above::Above;
use vector::row::Narrow;
use vector::width::Width;

// One sheet: the number of its ruling.
pub fn pass_sheet(s: &[u32], t: &mut [u32], a: Above, b: Above, columns: usize) -> u32
    requires width { Widths.Width columns }
    requires rows { Rows columns s.now t.old a.clock b.clock }
    ensures { SheetDone columns a.clock b.clock (vec a.floors.0) (vec b.floors.0) s.now t.old result t.new }
{
    if columns == Narrow::COLUMNS {
        return single::pass_sheet(s, t, a, b, Width::<8>::of());
    }
    single::pass_sheet(s, t, a, b, Width::<16>::of())
}

// Is the folder passed over, by the summaries in its rows?
pub fn may_pass_over(s: &[u32], t: &[u32], a: Above, b: Above, columns: usize) -> bool
    requires width { Widths.Width columns }
    requires rows { Rows columns s.now t.now a.clock b.clock }
    ensures { result ≡ over_rows columns a.clock b.clock (vec a.floors.0) (vec b.floors.0) s.now t.now }
{
    if columns == Narrow::COLUMNS {
        return folder::may_pass_over(s, t, a, b, Width::<8>::of());
    }
    folder::may_pass_over(s, t, a, b, Width::<16>::of())
}

// The row of a folder that is passed over.
pub fn raise_folder(s: &[u32], t: &mut [u32], a: Above, b: Above, columns: usize)
    requires width { Widths.Width columns }
    requires rows { Rows columns s.now t.old a.clock b.clock }
    ensures { t.new ≡ over_row columns a.clock b.clock (vec a.floors.0) s.now t.old }
{
    if columns == Narrow::COLUMNS {
        folder::raise_folder(s, t, a, b, Width::<8>::of());
        return;
    }
    folder::raise_folder(s, t, a, b, Width::<16>::of());
}

// A folder that is passed over, with the answers for it and for all beneath it.
pub fn over_row(s: &[u32], t: &mut [u32], answers: &mut [u32], a: Above, b: Above, columns: usize)
    requires width { Widths.Width columns }
    requires rows { Rows columns s.now t.old a.clock b.clock × (length s.now ≡ length answers.old * wide columns) }
    ensures { OverDone columns a.clock b.clock (vec a.floors.0) s.now t.old t.new answers.old answers.new }
{
    if columns == Narrow::COLUMNS {
        folder::over_row(s, t, answers, a, b, Width::<8>::of());
        return;
    }
    folder::over_row(s, t, answers, a, b, Width::<16>::of());
}
