// Who is ahead in a conflict: a mask for each side, and no mask where there is none.
use crate::act::Act;
use crate::play::{Case, Play};
use crate::tables::{FOLDER, ROOT, Table};
use std::io;

// Case A has no conflict, case C one; the other way the masks change places; a folder is none. Then each creates the sheet, and 1
// has heard of device 2.
pub fn all(rt: &impl Print) -> io::Result<()> {
    let play = Play::new(rt, Case::Ahead);
    let (mut zero, mut one) = play.begin()?;
    play.ask(&zero, &one, 2)?;
    play.event(&mut zero, Act::Change, 2, 701)?;
    play.event(&mut one, Act::Change, 2, 702)?;
    play.ask(&zero, &one, 2)?;
    play.ask(&one, &zero, 2)?;
    play.ask(&zero, &one, FOLDER)?;
    let mut zero = Table::of_five(0);
    let mut one = Table::of_five(1);
    let mut two = Table::of_five(2);
    play.event(&mut two, Act::Create, 3, 700)?;
    play.pass(&two, &mut one, ROOT)?;
    play.event(&mut one, Act::Create, 2, 701)?;
    play.event(&mut zero, Act::Create, 2, 702)?;
    play.ask(&zero, &one, 2)
}
