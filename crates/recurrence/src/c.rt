// For callers in C, whose interface gives the numbers one by one.
ghost use Rattle.std.specs.Prelude.{◌≡◌};
ghost use Rattle.recurrence.specs.ByRule.{known};
ghost use Rattle.recurrence.specs.First.{answer, number};
ghost use Rattle.recurrence.specs.Occurrence.{next_occurrence, weekly_event};

use crate::event::{Event, Kind, Repeat, Weekdays};
use crate::rule::NotKnown;

// The next occurrence of an event of every so-manieth week on one weekday; the largest number where there is none or it isn't known.
pub fn boomdate_next_weekly(first: u64, step: u64, weekday: u64, last: u64, from: u64) -> u64
    ensures { result ≡ number (answer (known (weekly_event first step weekday last).repeat first from) (next_occurrence (weekly_event first step weekday last) from)) }
{
    let event = Event {
        zone: 0,
        first,
        minute: 0,
        long: 1,
        busy: false,
        repeat: Repeat {
            kind: Kind::Weekly,
            step,
            weekdays: Weekdays::none().with(weekday),
            times: 0,
            last,
        },
    };
    number(event.next_occurrence(&[], from))
}

// The day, or the largest number where there is none.
fn number(answer: Result<Option<u64>, NotKnown>) -> u64
    ensures { result ≡ number answer }
{
    match answer {
        Ok(Some(day)) => day,
        _ => u64::MAX,
    }
}
