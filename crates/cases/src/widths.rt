// Tables of eight columns and of sixteen: made, widened, and passed.
use crate::act::Act;
use crate::calls;
use crate::line::{Said, Words};
use crate::tables::{ROOT, SHEET, TWO_ROWS, Table};
use paper::Content;
use std::io;
use vector::head::Head;
use vector::row::{Narrow, Row, Wide};

// The words of a wide table of two rows.
const WIDE_TWO_ROWS: usize = 3 * Wide::WIDTH;

// Where its sheet begins, and where the sheet's floor ends.
const WIDE_SHEET: usize = 2 * Wide::WIDTH;

const WIDE_FLOOR_END: usize = WIDE_SHEET + Row::FLOOR + Wide::COLUMNS;

// The plan of both.
const PLAN: [u32; 2] = [2, 0];

pub fn all(rt: &impl Print) -> io::Result<()> {
    made(rt)?;
    signed(rt)?;
    widened(rt)?;
    apart(rt)?;
    passed(rt)
}

// A narrow table of device 0 with one event.
fn narrow() -> Table<TWO_ROWS> {
    let mut table = Table::of_two(0);
    let _ = table.event(SHEET, Act::Create, Content::of(701, 2));
    table
}

// A wide table of device 15 with one event.
fn wide() -> Table<WIDE_TWO_ROWS> {
    let mut table = Table::new(16, 15, &PLAN);
    let _ = table.event(SHEET, Act::Create, Content::of(700, 1));
    table
}

// Words of a table on a line of their own.
fn row(rt: &impl Print, words: &[u32]) -> io::Result<()> {
    println!(rt; "{}", Words(words))
}

// A new table of a device, with so many columns; what was in the words stays on a refusal.
fn new(rt: &impl Print, columns: u32, device: u32, table: &mut [u32]) -> io::Result<()> {
    let said = Said(calls::new(columns, device, &PLAN, table));
    println!(rt; "new, {columns} columns, device {device}: {said}")
}

// Eight columns and sixteen there are, and no others; the last device of each.
fn made(rt: &impl Print) -> io::Result<()> {
    let mut narrow = [9; TWO_ROWS];
    for columns in [0, 7, 9, 17] {
        let said = Said(calls::new(columns, 0, &PLAN, &mut narrow));
        println!(rt; "new, {columns} columns: {said}")?;
    }
    new(rt, 8, 8, &mut narrow)?;
    row(rt, &narrow[..5])?;
    new(rt, 8, 7, &mut narrow)?;
    row(rt, &narrow[..5])?;
    let mut wide = [9; WIDE_TWO_ROWS];
    new(rt, 16, 16, &mut wide)?;
    new(rt, 16, 15, &mut wide)?;
    row(rt, &wide[..5])
}

// The check of a narrow table with another word 3.
fn signed(rt: &impl Print) -> io::Result<()> {
    for sign in [8, 15, 16] {
        let mut table = narrow();
        table.put(Head::SIGN, sign);
        println!(rt; "check, word 3 is {sign}: {}", Said(table.check()))?;
    }
    Ok(())
}

// A table widened: its head, and its sheet up to the end of the floor.
fn widened(rt: &impl Print) -> io::Result<()> {
    let mut table = narrow();
    let mut wider = [9; WIDE_TWO_ROWS];
    let said = Said(calls::widen(&table.words, &mut [9; 2 * Wide::WIDTH]));
    println!(rt; "widen into too little: {said}")?;
    let said = Said(calls::widen(&table.words, &mut wider));
    println!(rt; "widen: {said}")?;
    println!(rt; "check, widened: {}", Said(calls::check(&wider)))?;
    row(rt, &wider[..5])?;
    row(rt, &wider[WIDE_SHEET..WIDE_FLOOR_END])?;
    table.put(Narrow::WIDTH + Row::MARK, 1);
    let said = Said(calls::widen(&table.words, &mut wider));
    println!(rt; "widen what is damaged: {said}")?;
    let said = Said(calls::widen(&wide().words, &mut wider));
    println!(rt; "widen what is wide: {said}")
}

// No pass from one width to the other.
fn apart(rt: &impl Print) -> io::Result<()> {
    let mut answers = [9; 2];
    let said = Said(calls::pass(&narrow().words, &mut wide().words, ROOT, &mut answers));
    println!(rt; "narrow to wide: {said}")?;
    let said = Said(calls::pass(&wide().words, &mut narrow().words, ROOT, &mut answers));
    println!(rt; "wide to narrow: {said}")?;
    row(rt, &answers)
}

// A pass between wide tables, of which one was narrow.
fn passed(rt: &impl Print) -> io::Result<()> {
    let mut wider = [9; WIDE_TWO_ROWS];
    let _ = calls::widen(&narrow().words, &mut wider);
    let source = Table { words: wider };
    let mut target = wide();
    let mut answers = [9; 2];
    let said = Said(target.pass(&source, ROOT, &mut answers));
    println!(rt; "wide to wide: {said}")?;
    row(rt, &answers)?;
    println!(rt; "check, wide: {}", Said(target.check()))?;
    row(rt, &target.words[WIDE_SHEET..WIDE_FLOOR_END])
}
