// Weekdays, Monday first: Monday is 0. They stay numbers, as commands spell them.
ghost use Rattle.std.specs.Prelude.{◌≡◌, ◌+◌, ◌-◌, ◌*◌, ◌≤◌, true, false, MatchOption, ◌==◌, nat_le};
ghost use Rattle.pages.specs.Lists.{pick};
ghost use Rattle.dates.specs.Date.{weekday, week, which, is_last, nth_weekday};
ghost use Rattle.dates.specs.Civil.{number_of, Of, an_nth};

use crate::calendar::{dated, month_length};
use crate::civil::Date;

impl Date {
    pub fn weekday(self) -> u64
        ensures { result ≡ weekday (number_of self) }
    {
        (self.to_day() + 5) % 7
    }

    // The weeks from 27 December 1999, a Monday, on.
    pub fn week(self) -> u64
        ensures { result ≡ week (number_of self) }
    {
        (self.to_day() + 5) / 7
    }

    // How many days of its weekday come before it in its month.
    #[tactic(auto, using(crate::proofs::Own::of_self))]
    pub fn which(self) -> u64
        ensures { result ≡ which (number_of self) }
    {
        (self.day - 1) / 7
    }

    // Whether it is the last of its weekday in its month.
    #[tactic(auto, using(crate::proofs::Own::last_of_weekday))]
    pub fn is_last(self) -> bool
        ensures { result ≡ is_last (number_of self) }
    {
        self.day + 7 > month_length(self.year, self.month)
    }

    // The first to the fourth, or (5) the last, of a weekday in its month; any numbers, and those that name none have no date.
    pub fn nth_weekday(self, weekday: u64, nth: u64) -> Option<Date>
        ensures { MatchOption result (an_nth weekday nth ≡ false) (λ x. (an_nth weekday nth ≡ true) × Of x (nth_weekday self.year self.month weekday nth) × (x.year ≡ self.year) × (x.month ≡ self.month)) }
    {
        if weekday > 6 || !(1..=5).contains(&nth) {
            return None;
        }
        let first = 1 + (weekday + 7 - self.first_of_month().weekday()) % 7;
        let day = nth_day(first, nth, month_length(self.year, self.month));
        Some(dated(self.year, self.month, day))
    }
}

// The day of the month, where the weekday's first day and the month's length are these.
fn nth_day(first: u64, nth: u64, length: u64) -> u64
    requires { (1 ≤ first) × ((first ≤ 7) × ((1 ≤ nth) × (nth ≤ 5))) }
    ensures { result ≡ pick (nth == 5) (pick (nat_le (first + 28) length) (first + 28) (first + 21)) (first + 7 * (nth - 1)) }
{
    if nth < 5 {
        first + 7 * (nth - 1)
    } else if first + 28 <= length {
        first + 28
    } else {
        first + 21
    }
}
