// Refusals 6 and 7: later counts than a counter.
ghost use Rattle.std.specs.Prelude.{◌≡◌, ◌<◌};
ghost use Rattle.paper.specs.Tree.{later};
ghost use Rattle.paper.specs.Words.{table_of};
ghost use Rattle.paper.specs.Check.{check_of};

use paper::Clock;
use vector::head::Head;
use vector::row::Row;
use vector::width::Width;

// Whether a floor of the table names a later count of the clock's device than its counter.
#[tactic(auto, using(order::proofs::RowPlaces::begins, crate::proofs::TwoTables::table_long, crate::proofs::LaterCounts::later_counts))]
pub fn names_later<const N: usize>(table: &[u32], clock: Clock, w: Width<N>) -> bool
    requires { (check_of N table.now ≡ 0) × (clock.device < N) }
    ensures { result ≡ later clock (table_of N table.now).tree }
{
    let width = Row::FLOOR + 4 * N;
    let column = Row::FLOOR + clock.device as usize;
    for row in 0..table[Head::ROWS] as usize {
        if clock.counter < table[(row + 1) * width + column] {
            return true;
        }
    }
    false
}
