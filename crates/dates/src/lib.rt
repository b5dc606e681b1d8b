// Days, dates and zones.
#![tactic(auto)]

ghost use Rattle.std.specs.Prelude.{◌≡◌, ◌-◌, ◌^◌, Some, codes};
ghost use Rattle.pages.specs.Lists.{pick};
ghost use Rattle.dates.specs.Date.{day_of};
ghost use Rattle.dates.specs.Calendar.{a_date};
ghost use Rattle.dates.specs.Civil.{told};
ghost use Rattle.dates.specs.Entry.{date_reply, refusal};
ghost use Rattle.dates.specs.Promise.{DatesRight, DatesBack, LeapDays};
ghost use Rattle.dates.specs.Worked.{Worked};

pub mod calendar;
pub mod civil;
pub mod read;
pub mod text;
pub mod weekdays;
pub mod zone;

use civil::Date;
use std::error::Error;
use std::fmt;

// Why a day has no date here.
#[derive(Clone, Copy, Debug, PartialEq, Eq)]
pub struct NoSuchDay;

// The number of the refusal.
impl From<NoSuchDay> for u64 {
    ghost from_gives = { λ why number. number ≡ refusal why };

    fn from(_why: NoSuchDay) -> u64 {
        1
    }
}

impl fmt::Display for NoSuchDay {
    ghost output = { λ _. Some (codes "no such day") };

    fn fmt<W: fmt::Write>(&self, f: &mut fmt::Formatter<W>) -> fmt::Result {
        f.write_str("no such day")
    }
}

impl Error for NoSuchDay {}

// The days that commands may name end here.
const END: u64 = 73_000;

// The date of a day as one number: the year times 10,000, the month times 100, and the day.
#[tactic(auto, unfolding(crate::specs::Entry::date_reply))]
pub fn date(day: u64) -> Result<u64, NoSuchDay>
    ensures { result ≡ date_reply day }
{
    if day >= END {
        return Err(NoSuchDay);
    }
    let date = Date::from_day(day).ok_or(NoSuchDay)?;
    Ok(10_000 * date.year + 100 * date.month + date.day)
}

// The same for C: the date as a number, 0 where it is refused.
pub fn boomdate_date(day: u64) -> u64
    ensures { result ≡ told (date_reply day) }
{
    date(day).unwrap_or(0)
}

// The day of a date for C; the largest number where it is none.
pub fn boomdate_day(year: u64, month: u64, day: u64) -> u64
    ensures { result ≡ pick (a_date year month day) (day_of year month day) (2 ^ 64 - 1) }
{
    Date::new(year, month, day).map_or(u64::MAX, |date| date.to_day())
}

// Days and dates are each the other's, and a leap year has a day more.
#[tactic(auto, using(crate::proofs::Dates::dates_right, crate::proofs::Dates::dates_back, crate::proofs::Dates::leap_days))]
pub fn dates_right()
    ensures right { DatesRight }
    ensures back { DatesBack }
    ensures leap { LeapDays }
{}

// Days, dates, weekdays and times that anyone can look up.
#[tactic(auto, unfolding(crate::specs::Date::date_of, crate::specs::Date::day_of))]
pub fn worked_examples()
    ensures { Worked }
{}

#[cfg(test)]
mod tests {
    use super::*;
    use read::Misread;
    use std::test::Fail;
    use text::{Clock, Length};

    fn is_leap(year: u64) -> bool {
        year % 4 == 0 && year % 100 != 0 || year % 400 == 0
    }

    fn length(year: u64, month: u64) -> u64 {
        match month {
            4 | 6 | 9 | 11 => 30,
            2 if is_leap(year) => 29,
            2 => 28,
            _ => 31,
        }
    }

    // Every day, beside a calendar that knows only the lengths of the months and goes day by day.
    #[test]
    fn every_day(rt: HostRuntime) -> Result<(), Fail> {
        let mut year = 2000u64;
        let mut month = 1u64;
        let mut day = 1u64;
        let mut weekday = 5u64;
        for number in 0..73_049u64 {
            let Some(date) = Date::from_day(number) else {
                assert!(rt; false);
                return Ok(());
            };
            assert!(rt; date.year == year && date.month == month && date.day == day);
            assert!(rt; date.to_day() == number && date.weekday() == weekday);
            weekday = weekday.wrapping_add(1) % 7;
            day = day.wrapping_add(1);
            if day > length(year, month) {
                day = 1;
                month = month % 12 + 1;
            }
            if month == 1 && day == 1 {
                year = year.wrapping_add(1);
            }
        }
        assert!(rt; year == 2200 && month == 1 && day == 1);
        assert!(rt; Date::from_day(73_049).is_none());
        Ok(())
    }

    #[test]
    fn read_and_written(rt: HostRuntime) -> Result<(), Fail> {
        let date = Date::try_from(b"2026-03-30".as_slice())?;
        let clock = Clock::try_from(b"07:05".as_slice())?;
        let length = Length::try_from(b"2:00".as_slice())?;
        let written = format!(in rt.alloc(); "{date} {clock} {length}")?;
        assert_eq!(rt; written.as_str(), "2026-03-30 07:05 2:00");
        assert_eq!(rt; Date::try_from(b"2026-02-30".as_slice()), Err(Misread::Day));
        assert_eq!(rt;
            Length::try_from(b"02:00".as_slice()),
            Err(Misread::NoLength)
        );
        Ok(())
    }

    #[test]
    fn no_such_day(rt: HostRuntime) -> Result<(), Fail> {
        assert_eq!(rt; date(72_999), Ok(21_991_112));
        assert_eq!(rt; date(73_000), Err(NoSuchDay));
        let said = format!(in rt.alloc(); "{NoSuchDay}")?;
        assert_eq!(rt; said.as_str(), "no such day");
        assert_eq!(rt; u64::from(NoSuchDay), 1);
        Ok(())
    }
}
