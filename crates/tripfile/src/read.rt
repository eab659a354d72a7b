// Reading a trip file, line by line; `docs/TRIP.md` has its form.
use crate::fault::{TripFault, Wrong};
use crate::fields::Fields;
use crate::trip::{Column, Survey, Trip, Window};
use std::alloc::Global;
use survey::filter::Filter;
use survey::shot::Shot;

// What the lines so far gave of a survey, and the line that it begins with.
#[derive(Drop)]
struct SurveyLines {
    name: String,
    filters: Vec<Filter>,
    line: usize,
}

impl SurveyLines {
    fn survey(self) -> Result<Survey, TripFault> {
        let &[first, second] = self.filters.as_slice() else {
            return Err(TripFault::Line(self.line, Wrong::FewFilters));
        };
        Ok(Survey {
            name: self.name,
            first,
            second,
        })
    }
}

// What the lines so far gave.
#[derive(Drop)]
struct Lines {
    heap: Global,
    name: String,
    shots: Vec<Shot>,
    columns: Vec<Column>,
    surveys: Vec<SurveyLines>,
    window: Window,
    threshold: usize,
}

impl Lines {
    fn new(heap: Global) -> Lines {
        Lines {
            heap,
            name: String::new(heap),
            shots: Vec::new(heap),
            columns: Vec::new(heap),
            surveys: Vec::new(heap),
            window: Window::ALL,
            threshold: 0,
        }
    }

    fn begin_survey(&mut self, name: &str, line: usize) -> Result<(), Wrong> {
        if self.surveys.len() >= 2 {
            return Err(Wrong::ThirdSurvey);
        }
        self.surveys.push(SurveyLines {
            name: String::from_str(self.heap, name)?,
            filters: Vec::new(self.heap),
            line,
        })?;
        Ok(())
    }

    fn add_filter(&mut self, filter: Filter) -> Result<(), Wrong> {
        let survey = self.surveys.last_mut().ok_or(Wrong::NoSurvey)?;
        if survey.filters.len() >= 2 {
            return Err(Wrong::ThirdFilter);
        }
        survey.filters.push(filter)?;
        Ok(())
    }

    fn read_line(&mut self, line: usize, text: &str) -> Result<(), Wrong> {
        let mut words = text.split_whitespace();
        let Some(word) = words.next() else {
            return Ok(());
        };
        if word.starts_with('#') {
            return Ok(());
        }
        let mut fields = Fields::new(words);
        match word {
            "trip" => self.name = String::from_str(self.heap, fields.name()?)?,
            "shot" => self.shots.push(fields.shot()?)?,
            "column" => self.columns.push(Column {
                name: String::from_str(self.heap, fields.name()?)?,
                pages: Vec::new(self.heap),
                line,
            })?,
            "page" => {
                let page = fields.page()?;
                let column = self.columns.last_mut().ok_or(Wrong::NoColumn)?;
                column.pages.push(page)?;
            }
            "survey" => self.begin_survey(fields.name()?, line)?,
            "filter" => self.add_filter(fields.filter()?)?,
            "shots" => self.window = fields.window()?,
            "threshold" => self.threshold = fields.number::<u32>()? as usize,
            _ => return Err(Wrong::Word),
        }
        fields.end()
    }
}

// The trip, or the first line at fault.
pub fn read_trip(heap: Global, text: &str) -> Result<Trip, TripFault> {
    let mut lines = Lines::new(heap);
    for (line, text) in (1..).zip(text.lines()) {
        lines
            .read_line(line, text)
            .map_err(|wrong| TripFault::Line(line, wrong))?;
    }
    let (Some(second), Some(first)) = (lines.surveys.pop(), lines.surveys.pop()) else {
        return Err(TripFault::Line(text.lines().count(), Wrong::FewSurveys));
    };
    Ok(Trip {
        name: lines.name,
        shots: lines.shots,
        columns: lines.columns,
        first: first.survey()?,
        second: second.survey()?,
        window: lines.window,
        threshold: lines.threshold,
    })
}
