// What a table knows above some of its rows.
ghost use Rattle.std.specs.Prelude.{◌≡◌, ◌<◌};
ghost use Rattle.paper.specs.Columns.{vec, full};
ghost use Rattle.paper.specs.Devices.{devices};

use crate::Vector;
use paper::Clock;

// The table's clock, and the greatest of the floors of the folders above some of its rows.
#[derive(Clone, Copy)]
pub struct Above {
    pub clock: Clock,
    pub floors: Vector,
}

impl Above {
    // A vector under these floors, with the counter in the own column: a row's known time, or a folder's full least or most.
    pub fn full(self, v: Vector) -> Vector
        requires { self.clock.device < devices }
        ensures { vec result.0 ≡ full self.clock (vec self.floors.0) (vec v.0) }
    {
        v.full(self.floors, self.clock)
    }
}
