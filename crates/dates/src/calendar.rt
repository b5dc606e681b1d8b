// Days and dates: each from the other, and a date from another.
ghost use Rattle.std.specs.Prelude.{◌≡◌, ℕ, ◌+◌, ◌-◌, ◌*◌, ◌/◌, ◌%◌, ◌<◌, ◌≤◌, true, false, MatchOption};
ghost use Rattle.dates.specs.Date.{date_of, day_of, months};
ghost use Rattle.dates.specs.Calendar.{In, a_date, month_days, year_after, month_after};
ghost use Rattle.dates.specs.Civil.{number_of, Is, Of};
ghost use Rattle.dates.specs.Promise.{leap};

use crate::civil::Date;

// The years that dates are of.
pub const FIRST_YEAR: u64 = 2000;

pub const LAST_YEAR: u64 = 2199;

// 31 December 2199.
pub const LAST_DAY: u64 = 73_048;

// Years are counted from March, so that a leap day is a year's last: the days before each month of such a year.
const BEFORE: [u64; 12] = [0, 31, 61, 92, 122, 153, 184, 214, 245, 275, 306, 337];

fn days_before(month: u64) -> u64
    requires { month < 12 }
    ensures { result ≡ (153 * month + 2) / 5 }
{
    BEFORE[month as usize]
}

fn is_leap(year: u64) -> bool
    ensures { result ≡ leap year }
{
    year % 4 == 0 && (year % 100 != 0 || year % 400 == 0)
}

#[tactic(auto, unfolding(crate::specs::Calendar::month_days))]
pub(crate) fn month_length(year: u64, month: u64) -> u64
    requires { (1 ≤ month) × (month ≤ 12) }
    ensures { result ≡ month_days year month }
{
    match month {
        2 if is_leap(year) => 29,
        2 => 28,
        4 | 6 | 9 | 11 => 30,
        _ => 31,
    }
}

// The date of a year, month and day that are one.
#[tactic(auto, using(crate::proofs::Dates::month_small))]
pub(crate) fn dated(year: u64, month: u64, day: u64) -> Date
    requires { (In year month day) × (year ≤ 2199) }
    ensures of { Of result (day_of year month day) }
    ensures is { Is result year month day }
{
    Date { year, month, day }
}

// The date of a day, where it has one.
fn day_dated(day: u64) -> Date
    requires { day ≤ 73048 }
    ensures { Of result day }
{
    let since = day + 730_425;
    let in_era = since % 146_097;
    let year = (in_era - in_era / 1460 + in_era / 36_524 - in_era / 146_096) / 365;
    let rest = in_era - (365 * year + year / 4 - year / 100);
    let month = (5 * rest + 2) / 153;
    let year = year + 400 * (since / 146_097);
    let day = rest - days_before(month) + 1;
    if month < 10 {
        dated(year, month + 3, day)
    } else {
        dated(year + 1, month - 9, day)
    }
}

impl Date {
    // None where they are no date of the calendar, or not of 2000 to 2199.
    #[tactic(auto, unfolding(crate::specs::Calendar::a_date))]
    pub fn new(year: u64, month: u64, day: u64) -> Option<Date>
        ensures { MatchOption result (a_date year month day ≡ false) (λ x. (a_date year month day ≡ true) × Is x year month day × Of x (day_of year month day)) }
    {
        if !(FIRST_YEAR..=LAST_YEAR).contains(&year) || !(1..=12).contains(&month) {
            return None;
        }
        (1..=month_length(year, month))
            .contains(&day)
            .then(|| dated(year, month, day))
    }

    // The date of a day, counted from 1 January 2000.
    pub fn from_day(day: u64) -> Option<Date>
        ensures { MatchOption result (73048 < day) (λ x. Of x day) }
    {
        (day <= LAST_DAY).then(|| day_dated(day))
    }

    // How many days after 1 January 2000 it is.
    #[tactic(auto, using(crate::proofs::Own::of_self), unfolding(crate::specs::Date::day_of))]
    pub fn to_day(self) -> u64
        ensures number { result ≡ number_of self }
        ensures last { result ≤ 73048 }
    {
        let (year, month) = if self.month <= 2 {
            (self.year - 1, self.month + 9)
        } else {
            (self.year, self.month - 3)
        };
        365 * year + year / 4 - year / 100 + year / 400 + days_before(month) + (self.day - 1)
            - 730_425
    }

    // The day after; none after the last.
    pub fn next(self) -> Option<Date>
        ensures { MatchOption result (number_of self ≡ 73048) (λ x. Of x (number_of self + 1)) }
    {
        if self.day < month_length(self.year, self.month) {
            Some(dated(self.year, self.month, self.day + 1))
        } else if self.month < 12 {
            Some(dated(self.year, self.month + 1, 1))
        } else if self.year < LAST_YEAR {
            Some(dated(self.year + 1, 1, 1))
        } else {
            None
        }
    }

    // The first of its month.
    pub fn first_of_month(self) -> Date
        ensures { Of result (day_of self.year self.month 1) }
    {
        dated(self.year, self.month, 1)
    }

    // The months from the year 0 on, so that the next month has the next number.
    #[tactic(auto, using(crate::proofs::Own::own_months))]
    pub fn months(self) -> u64
        ensures { result ≡ months (number_of self) }
    {
        12 * self.year + self.month
    }

    // The same day of the month some months later; none where that month has no such day.
    pub fn months_on(self, count: u64) -> Option<Date>
        ensures { MatchOption result (a_date (year_after self.year self.month count) (month_after self.month count) self.day ≡ false) (λ x. (months (number_of x) ≡ months (number_of self) + count) × (x.day ≡ self.day)) }
    {
        let months = (self.month - 1).checked_add(count)?;
        Date::new(self.year + months / 12, months % 12 + 1, self.day)
    }
}
