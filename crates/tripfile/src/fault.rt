// What can be wrong with a trip file, and how it is told.
use refusals::fault::SelectionFault;
use std::alloc::AllocError;
use thiserror::Error;

// What a line of the file has wrong.
#[derive(Clone, Copy, PartialEq, Eq, Debug, Error)]
pub enum Wrong {
    #[error("not a line that a trip has")]
    Word,
    #[error("a value is missing")]
    TooFew,
    #[error("a value too many")]
    TooMany,
    #[error("a value is not a whole number")]
    Number,
    #[error("a value is out of its range")]
    Range,
    #[error("a page with no column before it")]
    NoColumn,
    #[error("a filter with no survey before it")]
    NoSurvey,
    #[error("a third filter")]
    ThirdFilter,
    #[error("a third survey")]
    ThirdSurvey,
    #[error("a name is missing")]
    NoName,
    #[error("a survey with fewer than two filters")]
    FewFilters,
    #[error("the trip ends with fewer than two surveys")]
    FewSurveys,
    #[error("no memory")]
    NoMemory(#[from(alloc)] AllocError),
}

// A fault of a whole trip: in a line, in the page list of a column, or for want of memory.
#[derive(Clone, Copy, PartialEq, Eq, Debug, Error)]
pub enum TripFault {
    #[error("line {0}: {1}")]
    Line(usize, Wrong),
    #[error("line {0}: the page list of this column is refused by {number} at page {place}", number = .1.refusal().number, place = .1.refusal().place)]
    Pages(usize, SelectionFault),
    #[error("refused by {number} at {place}", number = .0.refusal().number, place = .0.refusal().place)]
    Refused(#[from] SelectionFault),
    #[error("no memory")]
    NoMemory(#[from(alloc)] AllocError),
}
