// The limits, the paper's marked sheets, the showings, the settlings, who is ahead, removals that meet, what a live sheet holds
// and the two widths, run and printed.

#![tactic(auto)]

mod act;
mod ahead;
mod calls;
mod contents;
mod limits;
mod line;
mod marked;
mod play;
mod removals;
mod settlings;
mod showings;
mod tables;
mod widths;

use std::io;

fn main(rt: HostRuntime) -> io::Result<()> {
    limits::all(&rt)?;
    marked::all(&rt)?;
    showings::all(&rt)?;
    settlings::all(&rt)?;
    ahead::all(&rt)?;
    removals::all(&rt)?;
    contents::all(&rt)?;
    widths::all(&rt)
}
