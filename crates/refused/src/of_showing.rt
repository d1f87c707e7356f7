// What refuses a showing: of the rows beneath a folder, and of the row that stands.
ghost use Rattle.std.specs.Prelude.{◌≡◌, IfOk};
ghost use Rattle.paper.specs.Words.{table_of};
ghost use Rattle.paper.specs.Check.{check_of};
ghost use Rattle.paper.specs.Refusals.{number_in};
ghost use Rattle.paper.specs.Calls.{beneath_refused, standing_refused, ruling_here};
ghost use Rattle.paper.specs.Widths;
ghost use Rattle.paper.specs.Widths.{width_of, standing_refused_any};
ghost use Rattle.vector.specs.Wideness.{columns_in};
ghost use Rattle.std.proofs.Math.Option.{some};

use crate::of_pair::{one_width, two_refused_at};
use paper::{Refusal, Ruling};
use table::check::check_at;
use table::head::columns_of;
use vector::head::Head;
use vector::row::{Columns, Row};
use vector::width::Width;
use verdict::ruling::ruling_at;

// The first refusal of a showing of the rows beneath a folder: 1, 2, 3, 8.
#[tactic(auto, unfolding(paper::specs::Calls::beneath_refused), using(crate::proofs::FirstRefused::refusals))]
fn beneath_refused_at<const N: usize>(table: &[u32], row: u32, w: Width<N>) -> Result<(), Refusal>
    requires { Widths.Width N }
    ensures { number_in result ≡ beneath_refused N table.now row }
{
    check_at(table, w)?;
    if table[Head::ROWS] <= row {
        return Err(Refusal::NoSuchRow);
    }
    if table[(row as usize + 1) * (Row::FLOOR + 4 * N)] != Row::FOLDER {
        return Err(Refusal::NoSuchRow);
    }
    Ok(())
}

// So at the table's own width, which is handed back.
pub fn beneath_refused(table: &[u32], row: u32) -> Result<Columns, Refusal>
    ensures number { number_in result ≡ beneath_refused (width_of table.now) table.now row }
    ensures width { IfOk result (λ c. columns_in c ≡ width_of table.now) }
{
    let columns = columns_of(table);
    match columns {
        Columns::Eight(w) => beneath_refused_at(table, row, w)?,
        Columns::Sixteen(w) => beneath_refused_at(table, row, w)?,
    }
    Ok(columns)
}

// As a pass up to 8, then 10; where nothing refuses, what the rules say.
#[tactic(auto, unfolding(paper::specs::Calls::standing_refused), using(crate::proofs::FirstRefused::refusals))]
fn standing_refused_at<const N: usize>(
    source: &[u32],
    target: &[u32],
    row: u32,
    w: Width<N>,
) -> Result<Ruling, Refusal>
    requires { (check_of N source.now ≡ 0) × (check_of N target.now ≡ 0) }
    ensures number { number_in result ≡ standing_refused N source.now target.now row }
    ensures said { IfOk result (λ r. some r ≡ ruling_here (table_of N source.now) (table_of N target.now) row) }
{
    two_refused_at(source, target, row, w)?;
    ruling_at(source, target, row as usize, w).ok_or(Refusal::Unfit)
}

// So of tables of any width: 1 to 3, 11 to 13, 19 first; where nothing refuses, the width and what the rules say.
#[tactic(auto, unfolding(paper::specs::Widths::widths_then), using(crate::proofs::FirstRefused::refusals))]
pub fn standing_refused(
    source: &[u32],
    target: &[u32],
    row: u32,
) -> Result<(Columns, Ruling), Refusal>
    ensures number { number_in result ≡ standing_refused_any source.now target.now row }
    ensures width { IfOk result (λ r. columns_in r.0 ≡ width_of target.now) }
    ensures said { IfOk result (λ r. some r.1 ≡ ruling_here (table_of (width_of target.now) source.now) (table_of (width_of target.now) target.now) row) }
{
    let columns = one_width(source, target)?;
    let said = match columns {
        Columns::Eight(w) => standing_refused_at(source, target, row, w)?,
        Columns::Sixteen(w) => standing_refused_at(source, target, row, w)?,
    };
    Ok((columns, said))
}
