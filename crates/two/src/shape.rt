// Refusal 4: sizes and folder places.
ghost use Rattle.std.specs.Prelude.{◌≡◌, ◌+◌, ◌*◌, ◌≤◌, length};
ghost use Rattle.paper.specs.Tree.{shaped};
ghost use Rattle.paper.specs.Words.{wide, table_of};
ghost use Rattle.paper.specs.Check.{check_of};
ghost use Rattle.paper.specs.Calls.{row_at};
ghost use Rattle.two.specs.PlanNumber.{plan_number};

use vector::head::Head;
use vector::row::Row;
use vector::width::Width;

// A row's number in a plan: 0 for a sheet, its size for a folder.
#[tactic(auto, using(crate::proofs::Shaped::sheet_at, crate::proofs::Shaped::folder_at))]
fn plan_number<const N: usize>(t: &[u32], row: usize, w: Width<N>) -> u32
    requires { (row + 2) * wide N ≤ length t.now }
    ensures { result ≡ plan_number (row_at N t.now row) }
{
    let at = (row + 1) * (Row::FLOOR + 4 * N);
    if t[at + Row::KIND] == Row::FOLDER {
        t[at + Row::SIZE]
    } else {
        0
    }
}

// Whether sizes and folder places of two tables are the same: whether they follow one plan.
#[tactic(auto, using(order::proofs::RowPlaces::begins, crate::proofs::TwoTables::table_long, crate::proofs::Shaped::same_plans))]
pub fn same_shape<const N: usize>(source: &[u32], target: &[u32], w: Width<N>) -> bool
    requires { (check_of N source.now ≡ 0) × (check_of N target.now ≡ 0) }
    ensures { result ≡ shaped (table_of N source.now).tree (table_of N target.now).tree }
{
    if source.len() != target.len() {
        return false;
    }
    for row in 0..source[Head::ROWS] as usize {
        if plan_number(source, row, w) != plan_number(target, row, w) {
            return false;
        }
    }
    true
}
