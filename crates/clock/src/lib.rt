// The clock: it is lent, goes up by one in place, and hands out the new stamp.

#![tactic(auto)]

ghost use Rattle.std.specs.Prelude.{◌≡◌, ◌+◌, ◌<◌, ◌^◌};
ghost use Rattle.paper.specs.Calls.{new_stamp, ticked};

use paper::{Clock, Stamp};

// A clock that went up, with the stamp that it handed out.
#[derive(Drop)]
pub struct Ticked {
    pub clock: Clock,
    pub stamp: Stamp,
}

// Advances the clock and hands out the stamp of the new event.
pub fn tick(c: &mut Clock) -> Stamp
    requires { c.old.counter + 1 < 2 ^ 32 }
    ensures { (c.new ≡ ticked c.old) × (result ≡ new_stamp c.old) }
{
    let device = c.device;
    let before = c.counter;
    let count = before + 1;
    c.counter = count;
    Stamp::of(device, count)
}

// Lends a clock to go up; hands back both the clock and the new stamp.
pub fn ticking(clock: Clock) -> Ticked
    requires { clock.counter + 1 < 2 ^ 32 }
    ensures { (result.clock ≡ ticked clock) × (result.stamp ≡ new_stamp clock) }
{
    let mut lent = clock;
    let stamp = tick(&mut lent);
    let after = lent;
    Ticked {
        clock: after,
        stamp,
    }
}
