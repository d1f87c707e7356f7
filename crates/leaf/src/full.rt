// What a row's vectors come to under the floors above.
ghost use Rattle.std.specs.Prelude.{◌≡◌, ◌+◌, ◌≤◌, ◌<◌, length};
ghost use Rattle.paper.specs.Columns.{vec, full, part};
ghost use Rattle.paper.specs.Devices.{devices};

use vector::Vector;
use vector::above::Above;

// The vector at a place of a row, under what is above: a sheet's known time, a folder's full least and full most.
pub fn full_at(row: &[u32], at: usize, above: Above, columns: usize) -> Vector
    requires { (at + columns ≤ length row.now) × (above.clock.device < columns) × (columns ≤ devices) }
    ensures { vec result.0 ≡ full above.clock (vec above.floors.0) (part columns at row.now) }
{
    above.full(Vector::read(row, at, columns))
}
