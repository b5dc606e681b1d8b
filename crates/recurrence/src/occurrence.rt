// On which days an event occurs: those on which it falls, the earliest so many where it has a number of times, without those left out.
// The days left out are lent, rising. No loop goes over days: the one here passes over days that are left out,
// each once, so it takes at most one turn more than there are such days, and each looks one up by halves.
ghost use Rattle.std.specs.Prelude.{◌≡◌, true, [], Ok, Err};
ghost use Rattle.pages.specs.Lists.{pick};
ghost use Rattle.recurrence.specs.Event.{has, occurs, rising};
ghost use Rattle.recurrence.specs.Promise.{NoMoreTimes};
ghost use Rattle.recurrence.specs.Value.{event_with, repeat_of};
ghost use Rattle.recurrence.specs.ByRule.{known};
ghost use Rattle.recurrence.specs.First.{answer, not_known};
ghost use Rattle.recurrence.specs.Occurrence.{next_occurrence, AllKnown, OccurrencesRight};

use crate::event::Event;
use crate::rule::NotKnown;

impl Event {
    // Whether it occurs on a day.
    #[tactic(auto, using(crate::proofs::Fewer::no_more_times))]
    pub fn occurs(self, left_out: &[u64], day: u64) -> Result<bool, NotKnown>
        ensures is { rising left_out.now ≡ true → result ≡ pick (known (repeat_of self.repeat) self.first day) (Ok (occurs (event_with self [] left_out.now) day)) (Err not_known) }
        ensures fewer { NoMoreTimes }
    {
        let rule = self.repeat.rule(self.first, day)?;
        let falls = rule.next(day) == Some(day);
        Ok(falls && rule.in_times(day) && !is_left_out(left_out, day))
    }

    // The next occurrence from a day on. Asked again from the day after each, it gives them all, one after the other.
    #[tactic(auto, using(crate::proofs::Occurring::occurrences_right, crate::proofs::Occurring::all_known))]
    pub fn next_occurrence(self, left_out: &[u64], from: u64) -> Result<Option<u64>, NotKnown>
        ensures is { rising left_out.now ≡ true → result ≡ answer (known (repeat_of self.repeat) self.first from) (next_occurrence (event_with self [] left_out.now) from) }
        ensures right { OccurrencesRight }
        ensures known { AllKnown }
    {
        let rule = self.repeat.rule(self.first, from)?;
        let mut day = from;
        while let Some(next) = rule.next(day) {
            if !rule.in_times(next) {
                return Ok(None);
            }
            if !is_left_out(left_out, next) {
                return Ok(Some(next));
            }
            day = next + 1;
        }
        Ok(None)
    }
}

// What it finds is there; in a rising list it also misses nothing.
#[tactic(auto, using(crate::proofs::LeftOut::searched_there, crate::proofs::LeftOut::searched_exact))]
fn is_left_out(left_out: &[u64], day: u64) -> bool
    ensures there { result ≡ true → has left_out.now day ≡ true }
    ensures exact { rising left_out.now ≡ true → result ≡ has left_out.now day }
{
    left_out.binary_search(&day).is_ok()
}
