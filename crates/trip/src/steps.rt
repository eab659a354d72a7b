// The rows of each step, and what is told of them, in one form of selection or the other.
ghost use Rattle.std.specs.Prelude.{◌≡◌, map, IfOk};
ghost use Rattle.stored.specs.Makes.{made as rows_made};
ghost use Rattle.stored.specs.Rows.{stored_rows};
ghost use Rattle.survey.specs.Filters.{passes};
ghost use Rattle.trip.specs.Steps.{kept_by, StepOf, SurveyOf};

use rows::selector::RowSelector;
use runs::raw::collect_runs;
use runs::run_place::RunPlace;
use runs::source::CountedSource;
use selections::form::RowSelection;
use std::alloc::Global;
use stored::held::Stored;
use stored::operation::Operation;
use stored::perform::{into_runs, perform};
use stored::room::Room;
use stored::trouble::Trouble;
use survey::filter::Filter;
use survey::judge::judge;
use survey::keep::kept;
use survey::shot::Shot;
use tripfile::fault::TripFault;
use tripfile::trip::Survey;

// The rows of one step: how many are kept, and their runs.
#[derive(PartialEq, Drop)]
pub(crate) struct Step {
    pub kept: usize,
    pub runs: Vec<RowSelector>,
}

// A survey's steps: the rows of its first filter, and those of both.
#[derive(PartialEq, Drop)]
pub(crate) struct Surveyed {
    pub first: Step,
    pub both: Step,
}

// The fault of a trip that is told where there is no result.
fn untold(trouble: Trouble) -> TripFault {
    match trouble {
        Trouble::Refused(fault) => TripFault::Refused(fault),
        Trouble::NoMemory(error) => TripFault::NoMemory(error),
    }
}

// What an operation makes, in this form.
pub(crate) fn made(heap: Global, operation: Operation, form: Room) -> Result<Stored, TripFault>
    ensures { IfOk result (λ s. stored_rows s ≡ rows_made operation.entry) }
{
    perform(heap, operation, form).map_err(untold)
}

// What is told of these rows.
pub(crate) fn told_of(heap: Global, rows: &Stored) -> Result<Step, TripFault>
    ensures { IfOk result (λ s. StepOf (stored_rows rows.now) s) }
{
    let rows = rows.selection();
    let runs = into_runs(heap, Operation::Convert(rows), usize::MAX).map_err(untold)?;
    Ok(Step {
        kept: rows.selected_left(),
        runs: Vec::from_slice(heap, runs.list().runs())?,
    })
}

// The filter's rows of these shots.
fn filter_rows(
    heap: Global,
    filter: Filter,
    shots: &[Shot],
    form: Room,
) -> Result<Stored, TripFault>
    ensures { IfOk result (λ s. stored_rows s ≡ map (passes filter) shots.now) }
{
    let raw = judge(heap, filter, shots)?;
    let mut slots = vec![in heap; RowSelector::skip(0); raw.len()]?;
    let mut place = RunPlace::new(slots.as_mut_slice());
    collect_runs(raw.as_slice(), &mut place)?;
    let rows = RowSelection::from_runs(place.list());
    made(heap, Operation::Convert(rows), form)
}

// A survey's rows. Its second filter judges only the shots that the first left.
pub(crate) fn survey_rows(
    heap: Global,
    survey: &Survey,
    shots: &[Shot],
    form: Room,
) -> Result<(Surveyed, Stored), TripFault>
    ensures steps { IfOk result (λ t. SurveyOf survey.now shots.now t.0) }
    ensures rows { IfOk result (λ t. stored_rows t.1 ≡ map (kept_by survey.now) shots.now) }
{
    let first = filter_rows(heap, survey.first, shots, form)?;
    let left = kept(heap, first.selection(), shots)?;
    let second = filter_rows(heap, survey.second, left.as_slice(), form)?;
    let narrowed = Operation::Narrow(first.selection(), second.selection());
    let both = made(heap, narrowed, form)?;
    let surveyed = Surveyed {
        first: told_of(heap, &first)?,
        both: told_of(heap, &both)?,
    };
    Ok((surveyed, both))
}
