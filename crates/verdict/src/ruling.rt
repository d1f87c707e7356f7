// What the rules say at one row of two tables that are accepted, and who is ahead there.
ghost use Rattle.std.specs.Prelude.{◌≡◌, ◌≤◌, Ok};
ghost use Rattle.paper.specs.Words.{table_of};
ghost use Rattle.paper.specs.Calls.{two_refused, ruling_here, side, masked, masks_told, ahead_refused, ahead_here, masks_of};
ghost use Rattle.paper.specs.Devices.{devices};
ghost use Rattle.paper.specs.Named.{side_number};
ghost use Rattle.verdict.specs.SaidOf.{said_of};

use known::known_time;
use paper::{Ahead, Ruling, Side};
use rules::judge;
use vector::row::Row;
use vector::width::Width;

// In which table the row that stands lies, by what the rules say: in none of a folder and on a conflict.
pub fn side_of(said: Option<Ruling>) -> Option<Side>
    ensures { side_number result ≡ side (said_of said) }
{
    match said? {
        Ruling::KeepOwn | Ruling::KeepTheirs => Some(Side::Target),
        Ruling::Copy | Ruling::Remove => Some(Side::Source),
        Ruling::Conflict => None,
    }
}

// What the rules say at a row: of a folder nothing.
pub fn ruling_at<const N: usize>(
    source: &[u32],
    target: &[u32],
    row: usize,
    w: Width<N>,
) -> Option<Ruling>
    requires { two_refused N source.now target.now row ≡ 0 }
    ensures { said_of result ≡ ruling_here (table_of N source.now) (table_of N target.now) row }
{
    let width = Row::FLOOR + 4 * N;
    let at = (row + 1) * width;
    let end = at + width;
    if target[at + Row::KIND] == Row::FOLDER {
        return None;
    }
    let ka = known_time(source, row, N);
    let kb = known_time(target, row, N);
    let ruling = judge(&source[at..end], &target[at..end], ka, kb);
    Some(ruling)
}

// Who is ahead at a row in conflict: the masks of what the source knows beyond the target, and the target beyond the source.
pub fn masks_at(source: &[u32], target: &[u32], row: usize, columns: usize) -> Ahead
    requires { (ahead_refused columns source.now target.now row ≡ 0) × (columns ≤ devices) }
    ensures { masked (masks_told (Ok result)) ≡ masks_of (ahead_here columns (table_of columns source.now) (table_of columns target.now) row) }
{
    let ka = known_time(source, row, columns);
    let kb = known_time(target, row, columns);
    Ahead {
        source: ka.ahead(kb, columns),
        target: kb.ahead(ka, columns),
    }
}
