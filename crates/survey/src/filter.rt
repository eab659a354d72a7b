// A filter: the shots with one value in a range.
ghost use Rattle.std.specs.Prelude.{◌≡◌};
ghost use Rattle.survey.specs.Filters.{value_in, passes, IsFieldOf};

use crate::shot::Shot;
use std::str::FromStr;

#[derive(Clone, Copy, PartialEq, Eq, Debug)]
pub enum Field {
    From,
    To,
    Length,
    Azimuth,
    Inclination,
}

// What a word is that names no field.
#[derive(Clone, Copy, PartialEq, Eq, Debug)]
pub struct NoField;

// The least and the largest value that pass, both included.
#[derive(Clone, Copy, PartialEq, Eq, Debug)]
pub struct Filter {
    pub field: Field,
    pub least: i64,
    pub most: i64,
}

impl Field {
    // The value that a shot has there.
    pub fn of(self, shot: Shot) -> i64
        ensures { result ≡ value_in self shot }
    {
        match self {
            Field::From => i64::from(shot.from),
            Field::To => i64::from(shot.to),
            Field::Length => i64::from(shot.length),
            Field::Azimuth => i64::from(shot.azimuth),
            Field::Inclination => i64::from(shot.inclination),
        }
    }
}

impl FromStr for Field {
    type Err = NoField;

    ghost from_str_gives = { IsFieldOf };

    fn from_str(word: &str) -> Result<Field, NoField> {
        match word {
            "from" => Ok(Field::From),
            "to" => Ok(Field::To),
            "length" => Ok(Field::Length),
            "azimuth" => Ok(Field::Azimuth),
            "inclination" => Ok(Field::Inclination),
            _ => Err(NoField),
        }
    }
}

impl Filter {
    // Whether a shot passes.
    pub fn keeps(self, shot: Shot) -> bool
        ensures { result ≡ passes self shot }
    {
        (self.least..=self.most).contains(&self.field.of(shot))
    }
}
