// A date by its year, month and day. Only a date of the calendar has this type, from 1 January 2000 to 31 December 2199.
ghost use Rattle.std.specs.Prelude.{◌≤◌};
ghost use Rattle.dates.specs.Calendar.{month_days};

#[derive(Clone, Copy, Debug, PartialEq, Eq, PartialOrd, Ord)]
pub struct Date {
    pub year: u64,
    pub month: u64,
    pub day: u64,
    ghost first: { 2000 ≤ year },
    ghost last: { year ≤ 2199 },
    ghost low: { 1 ≤ month },
    ghost high: { month ≤ 12 },
    ghost one: { 1 ≤ day },
    ghost most: { day ≤ 31 },
    ghost inside: { day ≤ month_days year month },
}
