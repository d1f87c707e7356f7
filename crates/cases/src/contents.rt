// What a live sheet holds: the class of duty goes with the mark; a class above 9 is refused, and mark 0. Row 1 of a table of two rows.
use crate::act::{Act, Choice};
use crate::calls::Told;
use crate::line::{Said, Words};
use crate::tables::{Part, ROOT, SHEET, SHEET_START, TWO_ROWS, Table};
use paper::Content;
use std::{fmt, io};
use vector::row::Row;

// Where the sheet's mark and class stand.
const MARK: usize = SHEET_START + Row::MARK;

const CLASS: usize = SHEET_START + Row::CLASS;

// What a line is about.
#[derive(Clone, Copy)]
enum Step {
    Event(Act),
    Pass,
    Settling(Choice),
    Check,
}

impl fmt::Display for Step {
    fn fmt<W: fmt::Write>(&self, f: &mut fmt::Formatter<W>) -> fmt::Result {
        match self {
            Step::Event(act) => write!(f, "{act}"),
            Step::Pass => f.write_str("pass"),
            Step::Settling(choice) => write!(f, "settle {choice}"),
            Step::Check => f.write_str("check"),
        }
    }
}

pub fn all(rt: &impl Print) -> io::Result<()> {
    travel(rt)?;
    refused(rt)?;
    tables(rt)
}

// The answer of a call, and the sheet's kind to its class afterwards.
fn shown(rt: &impl Print, step: Step, answer: Told, table: &Table<TWO_ROWS>) -> io::Result<()> {
    let sheet = Words(table.part(SHEET, Part::Row));
    println!(rt; "{step}: {},{sheet}", Said(answer))
}

// An event at the sheet.
fn event(
    rt: &impl Print,
    table: &mut Table<TWO_ROWS>,
    act: Act,
    mark: u32,
    class: u32,
) -> io::Result<()> {
    let answer = table.event(SHEET, act, Content::of(mark, class));
    shown(rt, Step::Event(act), answer, table)
}

// A pass at the root.
fn pass(rt: &impl Print, source: &Table<TWO_ROWS>, target: &mut Table<TWO_ROWS>) -> io::Result<()> {
    let answer = target.pass(source, ROOT, &mut [9; 2]);
    shown(rt, Step::Pass, answer, target)
}

// The sheet settled in a copy of the target.
fn settle(
    rt: &impl Print,
    source: &Table<TWO_ROWS>,
    mut target: Table<TWO_ROWS>,
    choice: Choice,
    mark: u32,
    class: u32,
) -> io::Result<()> {
    let answer = target.settle(source, SHEET, choice, Content::of(mark, class));
    shown(rt, Step::Settling(choice), answer, &target)
}

// The check of a copy of a table with another word.
fn check(rt: &impl Print, mut table: Table<TWO_ROWS>, place: usize, word: u32) -> io::Result<()> {
    table.put(place, word);
    shown(rt, Step::Check, table.check(), &table)
}

// A class travels with the mark by copy and by theirs, and is taken by new; own keeps it. What theirs and own are handed is ignored.
fn travel(rt: &impl Print) -> io::Result<()> {
    let mut zero = Table::of_two(0);
    let mut one = Table::of_two(1);
    event(rt, &mut zero, Act::Create, 700, 4)?;
    pass(rt, &zero, &mut one)?;
    event(rt, &mut zero, Act::Change, 701, 5)?;
    event(rt, &mut one, Act::Change, 702, 6)?;
    settle(rt, &zero, one, Choice::Theirs, 0, 10)?;
    settle(rt, &zero, one, Choice::Own, 0, 10)?;
    settle(rt, &zero, one, Choice::New, 703, 9)
}

// A class above 9 is refused by 21, then mark 0 by 22, and nothing changes; a removal ignores both.
fn refused(rt: &impl Print) -> io::Result<()> {
    let mut zero = Table::of_two(0);
    let mut one = Table::of_two(1);
    event(rt, &mut zero, Act::Create, 700, 10)?;
    event(rt, &mut zero, Act::Create, 0, 9)?;
    event(rt, &mut zero, Act::Create, 0, 10)?;
    event(rt, &mut zero, Act::Create, 700, 9)?;
    pass(rt, &zero, &mut one)?;
    event(rt, &mut zero, Act::Change, 701, 10)?;
    event(rt, &mut zero, Act::Change, 701, 8)?;
    event(rt, &mut one, Act::Change, 702, 7)?;
    settle(rt, &zero, one, Choice::New, 703, 10)?;
    settle(rt, &zero, one, Choice::New, 0, 0)?;
    event(rt, &mut zero, Act::Remove, 0, 10)
}

// In a table: a class of 9 and of 10 in a live row, and of 1 in a row that is removed or never was; a mark of 1 and of 0 in a live row.
fn tables(rt: &impl Print) -> io::Result<()> {
    let mut table = Table::of_two(0);
    event(rt, &mut table, Act::Create, 700, 0)?;
    check(rt, table, CLASS, 9)?;
    check(rt, table, CLASS, 10)?;
    check(rt, table, MARK, 1)?;
    check(rt, table, MARK, 0)?;
    event(rt, &mut table, Act::Remove, 0, 0)?;
    check(rt, table, CLASS, 1)?;
    check(rt, Table::of_two(0), CLASS, 1)
}
