// Dates, times of day and lengths as text: 2026-03-30, 07:00 and 2:00.
ghost use Rattle.std.specs.Prelude.{◌≡◌, ◌/◌, ◌%◌, ◌<◌, [], ◌∷◌, ◌++◌, Some, MatchOption};
ghost use Rattle.dates.specs.Civil.{Of};
ghost use Rattle.dates.specs.Text.{date_written, clock_written, length_written};

use crate::civil::Date;
use std::fmt;

impl fmt::Display for Date {
    ghost output = { λ x. Some (date_written x.year x.month x.day) };

    fn fmt<W: fmt::Write>(&self, f: &mut fmt::Formatter<W>) -> fmt::Result {
        write!(f, "{:04}-{:02}-{:02}", self.year, self.month, self.day)
    }
}

// The time of day of a time in minutes.
#[derive(Clone, Copy, Debug, PartialEq, Eq, PartialOrd, Ord)]
pub struct Clock(pub u64);

impl fmt::Display for Clock {
    ghost output = { λ t. Some (clock_written t.0) };

    fn fmt<W: fmt::Write>(&self, f: &mut fmt::Formatter<W>) -> fmt::Result {
        write!(f, "{:02}:{:02}", self.0 / 60 % 24, self.0 % 60)
    }
}

// A number of minutes, as hours and minutes.
#[derive(Clone, Copy, Debug, PartialEq, Eq, PartialOrd, Ord)]
pub struct Length(pub u64);

impl fmt::Display for Length {
    ghost output = { λ n. Some (length_written n.0) };

    fn fmt<W: fmt::Write>(&self, f: &mut fmt::Formatter<W>) -> fmt::Result {
        write!(f, "{}:{:02}", self.0 / 60, self.0 % 60)
    }
}

// A time by its date and the minute of that day.
#[derive(Clone, Copy, Debug, PartialEq, Eq, PartialOrd, Ord)]
pub struct Time {
    pub date: Date,
    pub minute: u64,
}

impl Time {
    // The time that comes some minutes after the midnight of day 0.
    pub fn at(minutes: u64) -> Option<Time>
        ensures { MatchOption result (73048 < minutes / 1440) (λ x. Of x.date (minutes / 1440) × (x.minute ≡ minutes % 1440)) }
    {
        let date = Date::from_day(minutes / 1440)?;
        Some(Time {
            date,
            minute: minutes % 1440,
        })
    }
}

impl fmt::Display for Time {
    ghost output = { λ x. Some (date_written x.date.year x.date.month x.date.day ++ ((32 ∷ []) ++ clock_written x.minute)) };

    fn fmt<W: fmt::Write>(&self, f: &mut fmt::Formatter<W>) -> fmt::Result {
        write!(f, "{} {}", self.date, Clock(self.minute))
    }
}
