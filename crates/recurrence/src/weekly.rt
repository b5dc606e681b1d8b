// On given weekdays of every so-manieth week. Nothing goes over more than the seven weekdays.
ghost use Rattle.std.specs.Prelude.{◌≡◌, ◌-◌, ◌<◌, ◌≤◌, IfSome};
ghost use Rattle.recurrence.specs.Event.{has};
ghost use Rattle.recurrence.specs.Week.{days_of};
ghost use Rattle.recurrence.specs.ByRule.{day_limit, next_weekly, often_weekly, on_before, on_from, weeks_often};

use crate::event::Weekdays;
use crate::rule::Rule;

// The first weekday from one on that is on.
fn on_from(weekdays: Weekdays, start: u64) -> Option<u64>
    requires { start < 7 }
    ensures is { result ≡ on_from (has (days_of weekdays)) start (7 - start) }
    ensures within { IfSome result (λ w. (start ≤ w) × (w < 7)) }
{
    (start..7).find(|&day| weekdays.has(day))
}

// How many of the weekdays before one are on.
fn on_before(weekdays: Weekdays, end: u64) -> u64
    requires { end ≤ 7 }
    ensures { (result ≡ on_before (has (days_of weekdays)) end) × (result ≤ end) }
{
    // A loop for speed: by a filter that is counted it takes longer.
    let mut count = 0;
    for day in 0..end {
        if weekdays.has(day) {
            count += 1;
        }
    }
    count
}

impl Rule {
    // The first day from one on, which is not before the first; with no last day.
    #[tactic(auto, unfolding(crate::specs::ByRule::next_weekly))]
    pub(crate) fn next_weekly(self, start: u64) -> Option<u64>
        requires { (self.first ≤ start) × (start ≤ day_limit) }
        ensures { result ≡ next_weekly (has (days_of self.repeat.weekdays)) self.repeat.step self.first start }
    {
        let this = (start + 5) / 7;
        let past = (this - (self.first + 5) / 7) % self.repeat.step;
        if past == 0
            && let Some(day) = on_from(self.repeat.weekdays, (start + 5) % 7)
        {
            return Some(7 * this + day - 5);
        }
        let day = on_from(self.repeat.weekdays, 0)?;
        Some(7 * (this + (self.repeat.step - past)) + day - 5)
    }

    // Those of whole weeks before a week, and of that week up to a weekday.
    #[tactic(auto, using(crate::proofs::Counting::on_before_suc, crate::proofs::Steps::ceil_is), unfolding(crate::specs::ByRule::weeks_often, crate::specs::ByRule::on_before))]
    fn weeks_often(self, weeks: u64, end: u64) -> u64
        requires { (weeks ≤ day_limit) × (end < 7) }
        ensures { result ≡ weeks_often (has (days_of self.repeat.weekdays)) self.repeat.step weeks end }
    {
        let turns = weeks.div_ceil(self.repeat.step);
        let whole = on_before(self.repeat.weekdays, 7) * turns;
        if weeks % self.repeat.step == 0 {
            whole + on_before(self.repeat.weekdays, end + 1)
        } else {
            whole
        }
    }

    // How often from the first day to so many days after it.
    #[tactic(auto, using(crate::proofs::Counting::grows))]
    pub(crate) fn often_weekly(self, days: u64) -> u64
        requires { days ≤ day_limit }
        ensures { result ≡ often_weekly (has (days_of self.repeat.weekdays)) self.repeat.step self.first days }
    {
        let here = self.first + days + 5;
        let start = self.first + 5;
        self.weeks_often(here / 7 - start / 7, here % 7)
            - on_before(self.repeat.weekdays, start % 7)
    }
}
