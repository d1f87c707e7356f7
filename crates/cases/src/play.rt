// The steps of a case, each a call and a line with its answer.
use crate::act::{Act, Choice};
use crate::calls;
use crate::line::{Masks, Said, Words};
use crate::tables::{FIVE_ROWS, Part, ROOT, Table};
use paper::Content;
use std::{fmt, io};

// The cases, those of the marked sheets by their letters.
#[derive(Clone, Copy)]
pub enum Case {
    A,
    B,
    C,
    D,
    E,
    F,
    G,
    H,
    I,
    J,
    K,
    Showing,
    Theirs,
    Own,
    New,
    Removed,
    Refused,
    Taken,
    Held,
    Back,
    Ahead,
    Opposite,
}

impl fmt::Display for Case {
    fn fmt<W: fmt::Write>(&self, f: &mut fmt::Formatter<W>) -> fmt::Result {
        f.write_str(match self {
            Case::A => "A",
            Case::B => "B",
            Case::C => "C",
            Case::D => "D",
            Case::E => "E",
            Case::F => "F",
            Case::G => "G",
            Case::H => "H",
            Case::I => "I",
            Case::J => "J",
            Case::K => "K",
            Case::Showing => "showing",
            Case::Theirs => "theirs",
            Case::Own => "own",
            Case::New => "new",
            Case::Removed => "removed",
            Case::Refused => "refused",
            Case::Taken => "taken",
            Case::Held => "held",
            Case::Back => "back",
            Case::Ahead => "ahead",
            Case::Opposite => "opposite",
        })
    }
}

// A case as it is played: where its lines go, and the name that begins them.
#[derive(Drop)]
pub struct Play<'a, R> {
    rt: &'a R,
    case: Case,
}

impl<'a, R: Print> Play<'a, R> {
    pub fn new(rt: &'a R, case: Case) -> Self {
        Play { rt, case }
    }

    // How most cases begin, at tables of five rows: 0 creates row 2 and passes to 1.
    pub fn begin(&self) -> io::Result<(Table<FIVE_ROWS>, Table<FIVE_ROWS>)> {
        let mut zero = Table::of_five(0);
        let mut one = Table::of_five(1);
        self.event(&mut zero, Act::Create, 2, 700)?;
        self.pass(&zero, &mut one, ROOT)?;
        Ok((zero, one))
    }

    // An event at a row, with a mark and class 0.
    pub fn event<const WORDS: usize>(
        &self,
        table: &mut Table<WORDS>,
        act: Act,
        row: u32,
        mark: u32,
    ) -> io::Result<()> {
        let answer = table.event(row, act, Content::of(mark, 0));
        let (case, device) = (self.case, table.device());
        println!(self.rt; "{case} {device} {act}s row {row}: {}", Said(answer))
    }

    // A pass at a row, with its whole list. It holds 9s beforehand: a number that is not written shows.
    pub fn pass<const WORDS: usize>(
        &self,
        source: &Table<WORDS>,
        target: &mut Table<WORDS>,
        row: u32,
    ) -> io::Result<()> {
        let mut answers = [9; 5];
        let rows = target.size(row).min(5);
        let answer = target.pass(source, row, &mut answers[..rows]);
        let (case, from, to) = (self.case, source.device(), target.device());
        let list = Words(&answers[..rows]);
        println!(self.rt;
            "{case} {from} to {to} at row {row}: {},{list}",
            Said(answer)
        )
    }

    // A settling at a row, with a mark and class 0.
    pub fn settle<const WORDS: usize>(
        &self,
        source: &Table<WORDS>,
        target: &mut Table<WORDS>,
        row: u32,
        choice: Choice,
        mark: u32,
    ) -> io::Result<()> {
        let answer = target.settle(source, row, choice, Content::of(mark, 0));
        let (case, from, to) = (self.case, source.device(), target.device());
        let (choice, said) = (choice.number(), Said(answer));
        println!(self.rt; "{case} {from} to {to} settled at row {row} by {choice}: {said}")
    }

    // Who is ahead at a row: a number and two masks.
    pub fn ask<const WORDS: usize>(
        &self,
        source: &Table<WORDS>,
        target: &Table<WORDS>,
        row: u32,
    ) -> io::Result<()> {
        let masks = calls::ahead(&source.words, &target.words, row);
        let (case, from, to) = (self.case, source.device(), target.device());
        println!(self.rt;
            "{case} {from} to {to} asked at row {row}: {}",
            Masks(masks)
        )
    }

    // A part of a row of a table.
    pub fn part<const WORDS: usize>(
        &self,
        table: &Table<WORDS>,
        row: u32,
        part: Part,
    ) -> io::Result<()> {
        let (case, words) = (self.case, Words(table.part(row, part)));
        println!(self.rt; "{case} {part} {row}:{words}")
    }

    // The same below another line, without the name of the case.
    pub fn part_below<const WORDS: usize>(
        &self,
        table: &Table<WORDS>,
        row: u32,
        part: Part,
    ) -> io::Result<()> {
        let words = Words(table.part(row, part));
        println!(self.rt; "  {part} {row}:{words}")
    }
}
