// The row of a sheet.
ghost use Rattle.std.specs.Prelude.{◌≡◌, cond, ◌≤◌, ◌<◌, length};
ghost use Rattle.paper.specs.Columns.{vec};
ghost use Rattle.paper.specs.Words.{wide, floor_at};
ghost use Rattle.leaf.specs.Leaves.{Rows, SheetDone, taken_from, raised_where};

use crate::full::full_at;
use paper::Clock;
use rules::judge;
use vector::Vector;
use vector::above::Above;
use vector::row::Row;
use vector::width::Width;

// What stands at row s taken to row t, where `yes`: with an `if` at the call, what is known would be lost where its branches meet.
pub fn take_row(yes: bool, s: &[u32], t: &mut [u32])
    requires { (floor_at ≤ length s.now) × (floor_at ≤ length t.old) }
    ensures { t.new ≡ cond yes (taken_from s.now t.old) t.old }
{
    if yes {
        t[Row::KIND] = s[Row::KIND];
        vector::copy(&mut t[Row::STAMP..Row::FLOOR], &s[Row::STAMP..Row::FLOOR]);
        return;
    }
}

// The floor of row t raised by a vector, where `yes`, as above; the clock is that of t's table.
pub fn raise_floor<const N: usize>(yes: bool, t: &mut [u32], clock: Clock, v: Vector, w: Width<N>)
    requires { (wide N ≤ length t.old) × (clock.device < N) }
    ensures { t.new ≡ raised_where N yes clock (vec v.0) t.old }
{
    if yes {
        let floor = Vector::read(t, Row::FLOOR, N);
        let floor = floor.raised(v, clock);
        floor.write(t, Row::FLOOR, N);
        return;
    }
}

// One sheet: the number of its ruling.
pub fn pass_sheet<const N: usize>(s: &[u32], t: &mut [u32], a: Above, b: Above, w: Width<N>) -> u32
    requires { Rows N s.now t.old a.clock b.clock }
    ensures { SheetDone N a.clock b.clock (vec a.floors.0) (vec b.floors.0) s.now t.old result t.new }
{
    let ka = full_at(s, Row::FLOOR, a, N);
    let kb = full_at(t, Row::FLOOR, b, N);
    let r = judge(s, t, ka, kb);
    let joined = r.is_joined();
    let taken = r.is_taken();
    raise_floor(joined, t, b.clock, ka, w);
    take_row(taken, s, t);
    u32::from(r)
}
