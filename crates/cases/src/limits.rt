// The limits: rows of either width, levels and the counter.
ghost use Rattle.std.specs.Prelude.{◌<◌};

use crate::act::Act;
use crate::calls;
use crate::line::Said;
use crate::tables::{SHEET, TWO_ROWS, put};
use paper::Content;
use std::{fmt, io};
use vector::head::Head;
use vector::row::{Narrow, Row, Wide};

// What a table may not have more of.
#[derive(Clone, Copy)]
enum Limit {
    Rows,
    WideRows,
    Levels,
}

impl Limit {
    fn columns(self) -> u32 {
        match self {
            Limit::Rows | Limit::Levels => 8,
            Limit::WideRows => 16,
        }
    }

    // The words of a row.
    fn width(self) -> usize
        ensures { 0 < result }
    {
        match self {
            Limit::Rows | Limit::Levels => Narrow::WIDTH,
            Limit::WideRows => Wide::WIDTH,
        }
    }

    // What the head's word of the width says.
    fn sign(self) -> u32 {
        match self {
            Limit::Rows | Limit::Levels => 0,
            Limit::WideRows => 16,
        }
    }
}

impl fmt::Display for Limit {
    fn fmt<W: fmt::Write>(&self, f: &mut fmt::Formatter<W>) -> fmt::Result {
        f.write_str(match self {
            Limit::Rows => "rows",
            Limit::WideRows => "wide rows",
            Limit::Levels => "levels",
        })
    }
}

pub fn all(rt: &impl Print) -> io::Result<()> {
    rows(rt)?;
    rows_beyond(rt)?;
    levels(rt)?;
    counter(rt)
}

// A new table and the check of it. Where it is refused the table is as it was: laid by hand beforehand.
fn made(rt: &impl Print, limit: Limit, plan: &[u32], table: &mut [u32]) -> io::Result<()> {
    let reached = plan.len();
    let new = Said(calls::new(limit.columns(), 0, plan, table));
    println!(rt; "new, {reached} {limit}: {new}")?;
    println!(rt; "check, {reached} {limit}: {}", Said(calls::check(table)))
}

// The table of a plan laid by hand in words of 0, with as many rows as its root spans.
fn lay(limit: Limit, plan: &[u32], table: &mut [u32]) {
    for (row, size) in table.chunks_mut(limit.width()).skip(1).zip(plan) {
        if *size != 0 {
            put(row, Row::KIND, Row::FOLDER);
        }
        put(row, Row::SIZE, *size.max(&1));
    }
    put(table, Head::ROWS, plan.first().copied().unwrap_or(0));
    put(table, Head::SIGN, limit.sign());
}

// A table beyond a limit.
fn beyond(rt: &impl Print, limit: Limit, plan: &[u32], table: &mut [u32]) -> io::Result<()> {
    lay(limit, plan, table);
    made(rt, limit, plan, table)
}

// 256 rows pass.
fn rows(rt: &impl Print) -> io::Result<()> {
    let mut plan = [0; 256];
    plan[0] = 256;
    made(rt, Limit::Rows, &plan, &mut [9; 257 * Narrow::WIDTH])?;
    made(rt, Limit::WideRows, &plan, &mut [9; 257 * Wide::WIDTH])
}

// 257 do not.
fn rows_beyond(rt: &impl Print) -> io::Result<()> {
    let mut plan = [0; 257];
    plan[0] = 257;
    beyond(rt, Limit::Rows, &plan, &mut [0; 258 * Narrow::WIDTH])?;
    beyond(rt, Limit::WideRows, &plan, &mut [0; 258 * Wide::WIDTH])
}

// 16 levels pass, 17 do not: each row is a folder in the one before.
fn levels(rt: &impl Print) -> io::Result<()> {
    let plan = [17, 16, 15, 14, 13, 12, 11, 10, 9, 8, 7, 6, 5, 4, 3, 2, 1];
    made(rt, Limit::Levels, &plan[1..], &mut [9; 17 * Narrow::WIDTH])?;
    beyond(rt, Limit::Levels, &plan, &mut [0; 18 * Narrow::WIDTH])
}

// The counter takes one more event at 4294967294, and then none.
fn counter(rt: &impl Print) -> io::Result<()> {
    let mut table = [0; TWO_ROWS];
    let new = Said(calls::new(8, 7, &[2, 0], &mut table));
    println!(rt; "new, 2 rows: {new}")?;
    table[Head::COUNTER] = u32::MAX - 1;
    for (act, mark) in [(Act::Create, 700), (Act::Change, 701)] {
        let count = table[Head::COUNTER];
        let answer = calls::event(&mut table, SHEET, act, Content::of(mark, 0));
        println!(rt; "{act} at {count}: {}", Said(answer))?;
    }
    println!(rt; "check afterwards: {}", Said(calls::check(&table)))
}
