// A table of a device in words of its own, and the parts of its rows.
use crate::act::{Act, Choice};
use crate::calls;
use crate::calls::Told;
use paper::Content;
use std::fmt;
use vector::head::Head;
use vector::row::{Narrow, Row};

// The words of tables of two rows and of five.
pub const TWO_ROWS: usize = 3 * Narrow::WIDTH;

pub const FIVE_ROWS: usize = 6 * Narrow::WIDTH;

// The root of a table, the folder in one of five rows, and the sheet in one of two.
pub const ROOT: u32 = 0;

pub const FOLDER: u32 = 1;

pub const SHEET: u32 = 1;

// Where that sheet begins.
pub const SHEET_START: usize = 2 * Narrow::WIDTH;

// Eight words of a row: its kind to its class, its floor, its least or its most.
#[derive(Clone, Copy)]
pub enum Part {
    Row,
    Floor,
    Least,
    Most,
}

impl Part {
    // Where it begins in its row.
    fn start(self) -> usize {
        match self {
            Part::Row => Row::KIND,
            Part::Floor => Row::FLOOR,
            Part::Least => Row::FLOOR + 2 * Narrow::COLUMNS,
            Part::Most => Row::FLOOR + 3 * Narrow::COLUMNS,
        }
    }
}

impl fmt::Display for Part {
    fn fmt<W: fmt::Write>(&self, f: &mut fmt::Formatter<W>) -> fmt::Result {
        f.write_str(match self {
            Part::Row => "row",
            Part::Floor => "floor of row",
            Part::Least => "least of row",
            Part::Most => "most of row",
        })
    }
}

// A word of a table written by hand.
pub fn put(words: &mut [u32], place: usize, word: u32) {
    if let Some(old) = words.get_mut(place) {
        *old = word;
    }
}

// A table in so many words.
#[derive(Clone, Copy)]
pub struct Table<const WORDS: usize> {
    pub words: [u32; WORDS],
}

impl Table<TWO_ROWS> {
    // A new table of a device: a root with one sheet.
    pub fn of_two(device: u32) -> Self {
        Table::new(8, device, &[2, 0])
    }
}

impl Table<FIVE_ROWS> {
    // A new table of a device: a root, a folder with two sheets, and a sheet.
    pub fn of_five(device: u32) -> Self {
        Table::new(8, device, &[5, 3, 0, 0, 0])
    }
}

impl<const WORDS: usize> Table<WORDS> {
    // A new table of a device. It holds 9s beforehand: a word that is not written shows.
    pub fn new(columns: u32, device: u32, plan: &[u32]) -> Self {
        let mut words = [9; WORDS];
        let _ = calls::new(columns, device, plan, &mut words);
        Table { words }
    }

    pub fn event(&mut self, row: u32, act: Act, content: Content) -> Told {
        calls::event(&mut self.words, row, act, content)
    }

    // What a source passes to it.
    pub fn pass(&mut self, source: &Self, row: u32, answers: &mut [u32]) -> Told {
        calls::pass(&source.words, &mut self.words, row, answers)
    }

    // Its conflict with a source settled.
    pub fn settle(&mut self, source: &Self, row: u32, choice: Choice, content: Content) -> Told {
        calls::settle(&source.words, &mut self.words, row, choice, content)
    }

    pub fn check(&self) -> Told {
        calls::check(&self.words)
    }

    // A word written by hand.
    pub fn put(&mut self, place: usize, word: u32) {
        put(&mut self.words, place, word);
    }

    pub fn device(&self) -> u32 {
        self.words.get(Head::DEVICE).copied().unwrap_or(0)
    }

    // A row of a narrow table.
    fn row(&self, row: u32) -> &[u32] {
        self.words
            .chunks(Narrow::WIDTH)
            .nth(row as usize + 1)
            .unwrap_or(&[])
    }

    // How many rows a row spans, itself among them.
    pub fn size(&self, row: u32) -> usize {
        self.row(row)
            .get(Row::SIZE)
            .map_or(0, |size| *size as usize)
    }

    // A part of a row of a narrow table.
    pub fn part(&self, row: u32, part: Part) -> &[u32] {
        self.row(row)
            .get(part.start()..)
            .and_then(|rest| rest.get(..Narrow::COLUMNS))
            .unwrap_or(&[])
    }
}
