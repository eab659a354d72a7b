// One trip as its file gives it.
use pages::page::PageLocation;
use survey::filter::Filter;
use survey::shot::Shot;

// A column of the shot table, with the pages that its bytes stand in.
#[derive(Drop)]
pub struct Column {
    pub name: String,
    pub pages: Vec<PageLocation>,
    pub line: usize,
}

// One of the surveys that look at the trip: two filters, of which the second judges only the shots that the first left.
#[derive(Drop)]
pub struct Survey {
    pub name: String,
    pub first: Filter,
    pub second: Filter,
}

// Which of the kept shots are asked for: from the first to the last, counted from 1.
#[derive(Clone, Copy, PartialEq, Eq, Debug)]
pub struct Window {
    pub first: usize,
    pub last: usize,
}

impl Window {
    // All of them, since no selection has as many.
    pub const ALL: Window = Window {
        first: 1,
        last: u32::MAX as usize,
    };
}

#[derive(Drop)]
pub struct Trip {
    pub name: String,
    pub shots: Vec<Shot>,
    pub columns: Vec<Column>,
    pub first: Survey,
    pub second: Survey,
    pub window: Window,
    pub threshold: usize,
}
