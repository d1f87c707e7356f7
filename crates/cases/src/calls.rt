// The calls of the library. No other module names it.
use crate::act::{Act, Choice};
use kettleflock::{passing, settling, showing};
use paper::{Ahead, Content, Refusal, Side};

// What a call tells: its count, or why it does nothing.
pub type Told = Result<u32, Refusal>;

impl Act {
    // Its number in a call.
    fn number(self) -> u32 {
        match self {
            Act::Create => u32::from(paper::Event::Creates),
            Act::Change => u32::from(paper::Event::Changes),
            Act::Remove => u32::from(paper::Event::Removes),
        }
    }
}

impl Choice {
    // Its number in a call.
    pub fn number(self) -> u32 {
        match self {
            Choice::Theirs => u32::from(paper::Choice::Theirs),
            Choice::Own => u32::from(paper::Choice::Own),
            Choice::New => u32::from(paper::Choice::New),
            Choice::Unknown => 4,
        }
    }
}

pub fn new(columns: u32, device: u32, plan: &[u32], table: &mut [u32]) -> Told {
    kettleflock::new(columns, device, plan, table)
}

pub fn check(table: &[u32]) -> Told {
    kettleflock::check(table)
}

pub fn widen(table: &[u32], wider: &mut [u32]) -> Told {
    kettleflock::widen(table, wider)
}

pub fn event(table: &mut [u32], row: u32, act: Act, content: Content) -> Told {
    kettleflock::event(table, row, act.number(), content)
}

pub fn pass(source: &[u32], target: &mut [u32], row: u32, answers: &mut [u32]) -> Told {
    passing::pass(source, target, row, answers)
}

pub fn settle(
    source: &[u32],
    target: &mut [u32],
    row: u32,
    choice: Choice,
    content: Content,
) -> Told {
    settling::settle(source, target, row, choice.number(), content)
}

pub fn ahead(source: &[u32], target: &[u32], row: u32) -> Result<Ahead, Refusal> {
    settling::ahead(source, target, row)
}

// The rows beneath a folder.
pub fn beneath(table: &[u32], row: u32) -> &[u32] {
    showing::beneath(table, row)
}

pub fn beneath_answer(table: &[u32], row: u32) -> Told {
    showing::beneath_answer(table, row)
}

// The row that stands, in the table that it lies in.
pub fn standing<'a>(source: &'a [u32], target: &'a [u32], row: u32) -> &'a [u32] {
    showing::standing(source, target, row)
}

pub fn standing_answer(source: &[u32], target: &[u32], row: u32) -> Told {
    showing::standing_answer(source, target, row)
}

// In which of the two it lies.
pub fn standing_side(source: &[u32], target: &[u32], row: u32) -> Option<Side> {
    showing::standing_side(source, target, row)
}
