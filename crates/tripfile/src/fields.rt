// The words of a line behind its first, read one after another as values.
use crate::fault::Wrong;
use crate::trip::Window;
use pages::page::PageLocation;
use std::num::TryFromIntError;
use std::ops::RangeInclusive;
use std::str::SplitWhitespace;
use survey::filter::Filter;
use survey::shot::Shot;

#[derive(Drop)]
pub(crate) struct Fields<'a> {
    words: SplitWhitespace<'a>,
}

impl<'a> Fields<'a> {
    pub(crate) fn new(words: SplitWhitespace<'a>) -> Fields<'a> {
        Fields { words }
    }

    fn word(&mut self) -> Result<&'a str, Wrong> {
        self.words.next().ok_or(Wrong::TooFew)
    }

    // A whole number that its type holds.
    pub(crate) fn number<T: TryFrom<i64, Error = TryFromIntError>>(&mut self) -> Result<T, Wrong> {
        let number = self.word()?.parse::<i64>().map_err(|_| Wrong::Number)?;
        T::try_from(number).map_err(|_| Wrong::Range)
    }

    // One that lies in the range too.
    fn number_in<T: TryFrom<i64, Error = TryFromIntError> + PartialOrd + Drop>(
        &mut self,
        range: RangeInclusive<T>,
    ) -> Result<T, Wrong> {
        let number = self.number()?;
        if range.contains(&number) {
            Ok(number)
        } else {
            Err(Wrong::Range)
        }
    }

    // A name of one word.
    pub(crate) fn name(&mut self) -> Result<&'a str, Wrong> {
        self.words.next().ok_or(Wrong::NoName)
    }

    pub(crate) fn shot(&mut self) -> Result<Shot, Wrong> {
        Ok(Shot {
            from: self.number()?,
            to: self.number()?,
            length: self.number()?,
            azimuth: self.number_in(0..=35_999)?,
            inclination: self.number_in(-9_000..=9_000)?,
        })
    }

    pub(crate) fn page(&mut self) -> Result<PageLocation, Wrong> {
        Ok(PageLocation {
            offset: self.number()?,
            compressed_page_size: self.number()?,
            first_row_index: self.number()?,
        })
    }

    pub(crate) fn filter(&mut self) -> Result<Filter, Wrong> {
        Ok(Filter {
            field: self.word()?.parse().map_err(|_| Wrong::Word)?,
            least: self.number()?,
            most: self.number()?,
        })
    }

    // Counted from 1, and the last is not before the first.
    pub(crate) fn window(&mut self) -> Result<Window, Wrong> {
        let first = self.number_in(1..=u32::MAX)?;
        let last = self.number_in(first..=u32::MAX)?;
        Ok(Window {
            first: first as usize,
            last: last as usize,
        })
    }

    // Nothing more in the line.
    pub(crate) fn end(mut self) -> Result<(), Wrong> {
        match self.words.next() {
            Some(_) => Err(Wrong::TooMany),
            None => Ok(()),
        }
    }
}
