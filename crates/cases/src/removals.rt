// A sheet that two devices have removed, and a third that has changed it. Row 1 of a table of two rows.
use crate::act::{Act, Choice};
use crate::play::{Case, Play};
use crate::tables::{Part, ROOT, SHEET, Table};
use std::io;

pub fn all(rt: &impl Print) -> io::Result<()> {
    held(rt)?;
    back(rt)
}

// Desk 0 and tablet 1 remove the sheet; the desk takes in the tablet's removal, files the sheet anew, hands it to laptop
// 2 and removes it again. The tablet's row takes that removal, so the laptop's change meets a conflict there as at the desk.
fn held(rt: &impl Print) -> io::Result<()> {
    let play = Play::new(rt, Case::Held);
    let mut desk = Table::of_two(0);
    let mut tablet = Table::of_two(1);
    let mut laptop = Table::of_two(2);
    play.event(&mut desk, Act::Create, SHEET, 700)?;
    play.pass(&desk, &mut tablet, ROOT)?;
    play.event(&mut desk, Act::Remove, SHEET, 0)?;
    play.event(&mut tablet, Act::Remove, SHEET, 0)?;
    play.pass(&tablet, &mut desk, ROOT)?;
    play.part_below(&desk, SHEET, Part::Row)?;
    play.event(&mut desk, Act::Create, SHEET, 701)?;
    play.pass(&desk, &mut laptop, ROOT)?;
    play.event(&mut desk, Act::Remove, SHEET, 0)?;
    play.pass(&desk, &mut tablet, ROOT)?;
    play.part_below(&tablet, SHEET, Part::Row)?;
    play.event(&mut laptop, Act::Change, SHEET, 702)?;
    play.pass(&laptop, &mut tablet, ROOT)?;
    play.part_below(&tablet, SHEET, Part::Row)?;
    play.pass(&laptop, &mut desk, ROOT)
}

// 0 and 1 remove the sheet and neither has heard of the other; 2 changes it, and settles against the removal of 1 alone. From
// 2 straight to 0 is a conflict; by way of 1, whose row holds one removal of the two, the sheet comes back to 0.
fn back(rt: &impl Print) -> io::Result<()> {
    let play = Play::new(rt, Case::Back);
    let mut zero = Table::of_two(0);
    let mut one = Table::of_two(1);
    let mut two = Table::of_two(2);
    play.event(&mut zero, Act::Create, SHEET, 700)?;
    play.pass(&zero, &mut one, ROOT)?;
    play.pass(&zero, &mut two, ROOT)?;
    play.event(&mut one, Act::Remove, SHEET, 0)?;
    play.event(&mut zero, Act::Remove, SHEET, 0)?;
    play.event(&mut two, Act::Change, SHEET, 701)?;
    play.pass(&one, &mut two, ROOT)?;
    play.settle(&one, &mut two, SHEET, Choice::Own, 0)?;
    play.pass(&two, &mut zero, ROOT)?;
    play.pass(&zero, &mut one, ROOT)?;
    play.part_below(&one, SHEET, Part::Row)?;
    play.pass(&two, &mut one, ROOT)?;
    play.pass(&one, &mut zero, ROOT)?;
    play.part_below(&zero, SHEET, Part::Row)
}
