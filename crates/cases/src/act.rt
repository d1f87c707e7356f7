// What is done to a sheet, and how a conflict is settled.
use std::fmt;

// What an event does.
#[derive(Clone, Copy)]
pub enum Act {
    Create,
    Change,
    Remove,
}

impl fmt::Display for Act {
    fn fmt<W: fmt::Write>(&self, f: &mut fmt::Formatter<W>) -> fmt::Result {
        f.write_str(match self {
            Act::Create => "create",
            Act::Change => "change",
            Act::Remove => "remove",
        })
    }
}

// A choice that settles a conflict, and one that there is not.
#[derive(Clone, Copy)]
pub enum Choice {
    Theirs,
    Own,
    New,
    Unknown,
}

impl fmt::Display for Choice {
    fn fmt<W: fmt::Write>(&self, f: &mut fmt::Formatter<W>) -> fmt::Result {
        f.write_str(match self {
            Choice::Theirs => "theirs",
            Choice::Own => "own",
            Choice::New => "new",
            Choice::Unknown => "unknown",
        })
    }
}
