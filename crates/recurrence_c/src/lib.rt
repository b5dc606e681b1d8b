// Recurrence for callers in C.
// Named for C here alone, so that programs which use the crate don't export the name.
#![tactic(auto)]

ghost use Rattle.std.specs.Prelude.{◌≡◌};
ghost use Rattle.recurrence.specs.ByRule.{known};
ghost use Rattle.recurrence.specs.First.{answer, number};
ghost use Rattle.recurrence.specs.Occurrence.{next_occurrence, weekly_event};

// The next occurrence of an event of every so-manieth week on one weekday; the largest number where there is none or it isn't known.
#[unsafe(no_mangle)]
pub extern "C" fn boomdate_next_weekly(
    first: u64,
    step: u64,
    weekday: u64,
    last: u64,
    from: u64,
) -> u64
    ensures { result ≡ number (answer (known (weekly_event first step weekday last).repeat first from) (next_occurrence (weekly_event first step weekday last) from)) }
{
    recurrence::c::boomdate_next_weekly(first, step, weekday, last, from)
}
