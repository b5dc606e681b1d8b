// Dates for callers in C.
// Named for C here alone, so that programs which use the crate don't export the name.
#![tactic(auto)]

ghost use Rattle.std.specs.Prelude.{◌≡◌, ◌-◌, ◌^◌};
ghost use Rattle.pages.specs.Lists.{pick};
ghost use Rattle.dates.specs.Date.{day_of};
ghost use Rattle.dates.specs.Calendar.{a_date};
ghost use Rattle.dates.specs.Civil.{told};
ghost use Rattle.dates.specs.Entry.{date_reply};

// The date of a day: the year times 10,000, the month times 100, and the day; 0 where it is refused.
#[unsafe(no_mangle)]
pub extern "C" fn boomdate_date(day: u64) -> u64
    ensures { result ≡ told (date_reply day) }
{
    dates::boomdate_date(day)
}

// The day of a date; the largest number where it is none.
#[unsafe(no_mangle)]
pub extern "C" fn boomdate_day(year: u64, month: u64, day: u64) -> u64
    ensures { result ≡ pick (a_date year month day) (day_of year month day) (2 ^ 64 - 1) }
{
    dates::boomdate_day(year, month, day)
}
