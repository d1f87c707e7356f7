// The row of a folder.
ghost use Rattle.std.specs.Prelude.{◌≡◌, ◌*◌, length};
ghost use Rattle.paper.specs.Columns.{vec};
ghost use Rattle.paper.specs.Words.{wide};
ghost use Rattle.leaf.specs.Leaves.{Rows, OverDone, over_rows, over_row};

use crate::full::full_at;
use crate::silence::answer_silently;
use crate::single::raise_floor;
use summary::Summary;
use vector::Vector;
use vector::above::Above;
use vector::row::Row;
use vector::width::Width;

// Is the folder passed over, by the summaries in its rows? A's newest is covered by B's full least, and A's folder is level.
pub fn may_pass_over<const N: usize>(s: &[u32], t: &[u32], a: Above, b: Above, w: Width<N>) -> bool
    requires { Rows N s.now t.now a.clock b.clock }
    ensures { result ≡ over_rows N a.clock b.clock (vec a.floors.0) (vec b.floors.0) s.now t.now }
{
    let newest = Vector::read(s, Row::FLOOR + N, N);
    let least_b = full_at(t, Row::FLOOR + 2 * N, b, N);
    if least_b.covers(newest, N) {
        let least = full_at(s, Row::FLOOR + 2 * N, a, N);
        let most = full_at(s, Row::FLOOR + 3 * N, a, N);
        return least.same(most, N);
    }
    false
}

// The row of a folder that is passed over: its floor raised, and its summaries put right by those in the row.
pub fn raise_folder<const N: usize>(s: &[u32], t: &mut [u32], a: Above, b: Above, w: Width<N>)
    requires { Rows N s.now t.old a.clock b.clock }
    ensures { t.new ≡ over_row N a.clock b.clock (vec a.floors.0) s.now t.old }
{
    let least = full_at(s, Row::FLOOR + 2 * N, a, N);
    raise_floor(true, t, b.clock, least, w);
    let rows = Summary::of_folder(t, N);
    Summary::mend(Some(rows), t, w);
}

// A folder that is passed over, with the answers for it and for all beneath it.
pub fn over_row<const N: usize>(
    s: &[u32],
    t: &mut [u32],
    answers: &mut [u32],
    a: Above,
    b: Above,
    w: Width<N>,
)
    requires { Rows N s.now t.old a.clock b.clock × (length s.now ≡ length answers.old * wide N) }
    ensures { OverDone N a.clock b.clock (vec a.floors.0) s.now t.old t.new answers.old answers.new }
{
    answer_silently(s, answers, Row::FLOOR + 4 * N);
    raise_folder(s, t, a, b, w);
}
