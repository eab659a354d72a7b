// A command, with its arguments and what is listed behind them.
use pages::page::PageLocation;
use rows::range::RowRange;
use rows::selector::RowSelector;

// The first word of a command.
#[derive(Clone, Copy, PartialEq, Eq, Debug)]
pub enum Verb {
    Reset,
    Runs,
    Mask,
    Ranges,
    Copy,
    Convert,
    AndThen,
    And,
    Or,
    Join,
    Split,
    Offset,
    Limit,
    Trim,
    Rows,
    Bytes,
    Count,
    Sum,
    Eq,
    Strategy,
    Scan,
    PageRows,
    View,
    Nth,
    Open,
    Pos,
    Next,
    Give,
    Chunk,
    Batch,
    Shots,
    FillMask,
    FillRuns,
}

// Where a result goes: in its natural form, or into runs or a mask of that many runs or bytes.
#[derive(Clone, Copy, PartialEq, Eq, Debug)]
pub enum Place {
    Natural,
    Runs(usize),
    Mask(usize),
}

// An argument; of the loaded rows the slot, or none where all are loaded.
#[derive(Clone, Copy, PartialEq, Eq, Debug)]
pub enum Arg {
    Slot(usize),
    Number(usize),
    Place(Place),
    Loaded(Option<usize>),
}

// What stands behind the arguments.
#[derive(Drop)]
pub enum Tail {
    Nothing,
    Bytes(Vec<u8>),
    Runs(Vec<RowSelector>),
    Ranges(Vec<RowRange>),
    Pages(Vec<PageLocation>),
}

#[derive(Drop)]
pub struct Command {
    pub verb: Verb,
    pub head: Vec<Arg>,
    pub tail: Tail,
}
