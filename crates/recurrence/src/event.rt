// An event by value, without its title and the days left out, which are lists and stay where they are lent.
ghost use Rattle.std.specs.Prelude.{◌≡◌, ◌++◌, false, Some, slice_index_or, codes, decimal};
ghost use Rattle.recurrence.specs.Value.{kind_number, KindOf};
ghost use Rattle.recurrence.specs.Week.{with_day, no_days, flags};

use std::error::Error;
use std::fmt;

// On which days an event falls, from its first to its last.
#[derive(Clone, Copy, Debug, PartialEq, Eq)]
pub enum Kind {
    Once,
    Daily,
    // On given weekdays.
    Weekly,
    // On the same day of the month; in months without it not at all.
    Monthly,
    // On the same weekday, the same how-manieth of its month.
    MonthlyByWeekday,
    // On the same weekday, the last of its month.
    MonthlyByLastWeekday,
    Yearly,
}

// A number that no kind has.
#[derive(Clone, Copy, Debug, PartialEq, Eq)]
pub struct UnknownKind(pub u8);

impl From<Kind> for u8 {
    ghost from_gives = { λ kind number. number ≡ kind_number kind };

    fn from(kind: Kind) -> u8 {
        match kind {
            Kind::Once => 0,
            Kind::Daily => 1,
            Kind::Weekly => 2,
            Kind::Monthly => 3,
            Kind::MonthlyByWeekday => 4,
            Kind::MonthlyByLastWeekday => 5,
            Kind::Yearly => 6,
        }
    }
}

impl TryFrom<u8> for Kind {
    type Error = UnknownKind;

    ghost try_from_gives = { KindOf };

    fn try_from(number: u8) -> Result<Kind, UnknownKind> {
        match number {
            0 => Ok(Kind::Once),
            1 => Ok(Kind::Daily),
            2 => Ok(Kind::Weekly),
            3 => Ok(Kind::Monthly),
            4 => Ok(Kind::MonthlyByWeekday),
            5 => Ok(Kind::MonthlyByLastWeekday),
            6 => Ok(Kind::Yearly),
            _ => Err(UnknownKind(number)),
        }
    }
}

impl fmt::Display for UnknownKind {
    ghost output = { λ e. Some (codes "no kind of event has number " ++ decimal e.0) };

    fn fmt<W: fmt::Write>(&self, f: &mut fmt::Formatter<W>) -> fmt::Result {
        write!(f, "no kind of event has number {}", self.0)
    }
}

impl Error for UnknownKind {}

// A flag for each, by name, as the definitions and the layout of a page name the days; for an array in a struct in a tuple the check writes no proof.
#[derive(Clone, Copy, Debug, PartialEq, Eq)]
pub struct Weekdays {
    pub monday: bool,
    pub tuesday: bool,
    pub wednesday: bool,
    pub thursday: bool,
    pub friday: bool,
    pub saturday: bool,
    pub sunday: bool,
}

impl Weekdays {
    pub fn none() -> Weekdays
        ensures { result ≡ no_days }
    {
        Weekdays {
            monday: false,
            tuesday: false,
            wednesday: false,
            thursday: false,
            friday: false,
            saturday: false,
            sunday: false,
        }
    }

    // These and the one of a number, from 0 for Monday; no other number names one.
    #[inline(always)]
    pub fn with(self, day: u64) -> Weekdays
        ensures { result ≡ with_day day self }
    {
        match day {
            0 => Weekdays {
                monday: true,
                ..self
            },
            1 => Weekdays {
                tuesday: true,
                ..self
            },
            2 => Weekdays {
                wednesday: true,
                ..self
            },
            3 => Weekdays {
                thursday: true,
                ..self
            },
            4 => Weekdays {
                friday: true,
                ..self
            },
            5 => Weekdays {
                saturday: true,
                ..self
            },
            6 => Weekdays {
                sunday: true,
                ..self
            },
            _ => self,
        }
    }

    pub fn has(self, day: u64) -> bool
        ensures { result ≡ slice_index_or (flags self) day false }
    {
        match day {
            0 => self.monday,
            1 => self.tuesday,
            2 => self.wednesday,
            3 => self.thursday,
            4 => self.friday,
            5 => self.saturday,
            6 => self.sunday,
            _ => false,
        }
    }
}

#[derive(Clone, Copy, Debug, PartialEq, Eq)]
pub struct Repeat {
    pub kind: Kind,
    // Every so many days, weeks, months or years.
    pub step: u64,
    pub weekdays: Weekdays,
    // How many of its days count, the earliest; 0 for all, as commands and pages spell it.
    pub times: u64,
    // The last day on which it may fall.
    pub last: u64,
}

#[derive(Clone, Copy, Debug, PartialEq, Eq)]
pub struct Event {
    pub zone: u8,
    // The first day, and the minute of the day by its zone's clocks.
    pub first: u64,
    pub minute: u64,
    // How many minutes it lasts.
    pub long: u64,
    pub busy: bool,
    pub repeat: Repeat,
}
