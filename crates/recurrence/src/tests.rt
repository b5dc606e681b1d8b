// What must not go wrong, by name; and events drawn at random, beside a look at every day.
ghost use Rattle.std.specs.Prelude.{◌<◌};

use crate::event::*;
use crate::rule::NotKnown;
use std::process::Abort;
use std::test::Fail;

// Day 0 is Saturday, 1 January 2000.
const FRIDAY: u64 = 13;

const WEDNESDAY: u64 = 11;

const IN_2199: u64 = 72_684;

const LAST: u64 = 72_999;

fn repeating(kind: Kind, step: u64, first: u64, last: u64) -> Event {
    let repeat = Repeat {
        kind,
        step,
        weekdays: Weekdays::none(),
        times: 0,
        last,
    };
    Event {
        zone: 0,
        first,
        minute: 540,
        long: 60,
        busy: true,
        repeat,
    }
}

fn daily(step: u64, first: u64) -> Event {
    repeating(Kind::Daily, step, first, LAST)
}

fn weekly(step: u64, weekdays: Weekdays, first: u64) -> Event {
    let event = repeating(Kind::Weekly, step, first, LAST);
    Event {
        repeat: Repeat {
            weekdays,
            ..event.repeat
        },
        ..event
    }
}

fn with_times(event: Event, times: u64) -> Event {
    Event {
        repeat: Repeat {
            times,
            ..event.repeat
        },
        ..event
    }
}

fn fridays(step: u64) -> Event {
    weekly(step, Weekdays::none().with(4), FRIDAY)
}

// Asked of a day: the next occurrence from it on, on how many days it has fallen by then, and whether it occurs on it.
fn tells(
    rt: &impl Abort,
    event: Event,
    left_out: &[u64],
    day: u64,
    next: Option<u64>,
    count: Option<u64>,
) {
    let occurs = count.map(|_| next == Some(day));
    assert_eq!(rt; event.next_occurrence(left_out, day).unwrap_or(None), next);
    assert_eq!(rt; event.repeat.count(event.first, day).ok(), count);
    assert_eq!(rt; event.occurs(left_out, day).ok(), occurs);
}

#[test]
fn weeks_count_from_the_monday_and_not_the_first_day(rt: HostRuntime) {
    let two = weekly(2, Weekdays::none().with(0).with(2), WEDNESDAY);
    tells(&rt, two, &[], WEDNESDAY + 5, Some(WEDNESDAY + 12), Some(1));
}

#[test]
fn left_out_days_count_as_times(rt: HostRuntime) {
    let thrice = with_times(daily(1, 20), 3);
    tells(&rt, thrice, &[21], 21, Some(22), Some(2));
    tells(&rt, thrice, &[21], 23, None, Some(4));
}

#[test]
fn every_second_friday_over_years(rt: HostRuntime) {
    tells(&rt, fridays(2), &[], IN_2199, Some(72_687), Some(5191));
}

#[test]
fn since_2000_asked_in_2199(rt: HostRuntime) {
    tells(&rt, daily(3, 12), &[], IN_2199, Some(IN_2199), Some(24_225));
}

#[test]
fn every_thousandth_week(rt: HostRuntime) {
    tells(
        &rt,
        fridays(1000),
        &[],
        FRIDAY + 1,
        Some(FRIDAY + 7000),
        Some(1),
    );
}

#[test]
fn last_day_before_the_first(rt: HostRuntime) {
    tells(
        &rt,
        repeating(Kind::Daily, 1, 100, 50),
        &[],
        100,
        None,
        Some(0),
    );
}

#[test]
fn empty_weekdays(rt: HostRuntime) {
    let none = weekly(1, Weekdays::none(), WEDNESDAY);
    tells(&rt, none, &[], IN_2199, None, Some(0));
}

#[test]
fn first_day_on_none_of_its_weekdays(rt: HostRuntime) {
    let mondays = weekly(1, Weekdays::none().with(0), WEDNESDAY);
    tells(&rt, mondays, &[], WEDNESDAY, Some(WEDNESDAY + 5), Some(0));
}

#[test]
fn ten_thousand_times(rt: HostRuntime) {
    let many = with_times(daily(1, 11), 10_000);
    tells(&rt, many, &[], 10_010, Some(10_010), Some(10_000));
    tells(&rt, many, &[], 10_011, None, Some(10_001));
}

#[test]
fn other_kinds_and_a_step_of_0_are_not_known(rt: HostRuntime) {
    tells(&rt, daily(0, 11), &[], 11, None, None);
    tells(
        &rt,
        repeating(Kind::Yearly, 1, 11, LAST),
        &[],
        11,
        None,
        None,
    );
}

#[test]
fn kinds_by_number(rt: HostRuntime) {
    for number in 0..7u8 {
        assert_eq!(rt; Kind::try_from(number).map(u8::from), Ok(number));
    }
    assert_eq!(rt; Kind::try_from(7u8), Err(UnknownKind(7)));
}

#[test]
fn what_is_said_of_the_unknown(rt: HostRuntime) -> Result<(), Fail> {
    let kind = format!(in rt.alloc(); "{}", UnknownKind(7))?;
    assert_eq!(rt; kind.as_str(), "no kind of event has number 7");
    let event = format!(in rt.alloc(); "{NotKnown}")?;
    assert_eq!(rt;
        event.as_str(),
        "its kind is not known here, or a number is out of range"
    );
    Ok(())
}

// The numbers of a well-known generator, of which the upper bits serve.
fn drawn(seed: u64) -> u64 {
    seed.wrapping_mul(6_364_136_223_846_793_005)
        .wrapping_add(1_442_695_040_888_963_407)
}

fn part(seed: u64, shift: u32, below: u64) -> u64
    requires { (0 < below) × (shift < 64) }
    ensures { result < below }
{
    (seed >> shift) % below
}

fn falls(event: Event, day: u64) -> bool {
    let repeat = event.repeat;
    if day < event.first || day > repeat.last || repeat.step == 0 {
        return false;
    }
    let weeks = (day.saturating_add(5) / 7).saturating_sub(event.first.saturating_add(5) / 7);
    match repeat.kind {
        Kind::Once => day == event.first,
        Kind::Daily => (day - event.first) % repeat.step == 0,
        _ => repeat.weekdays.has(day.saturating_add(5) % 7) && weeks % repeat.step == 0,
    }
}

// By a look at every day: the first from one on, and how often up to it.
fn look(event: Event, left_out: [u64; 3], day: u64) -> (Option<u64>, u64) {
    let times = event.repeat.times;
    let mut next = None;
    let mut all = 0u64;
    let mut count = 0;
    for d in event.first..200 {
        if falls(event, d) {
            all = all.saturating_add(1);
            if d <= day {
                count = all;
            }
            let kept = (times == 0 || all <= times) && !left_out.contains(&d);
            if kept && d >= day && next.is_none() {
                next = Some(d);
            }
        }
    }
    (next, count)
}

fn some_event(seed: u64) -> Event {
    let kind = match part(seed, 8, 5) {
        0 => Kind::Once,
        1 | 2 => Kind::Daily,
        _ => Kind::Weekly,
    };
    let event = repeating(
        kind,
        1 + part(seed, 16, 4),
        part(seed, 24, 60),
        part(seed, 32, 200),
    );
    let weekdays = Weekdays::none()
        .with(part(seed, 40, 9))
        .with(part(seed, 44, 9))
        .with(part(seed, 48, 9));
    Event {
        repeat: Repeat {
            weekdays,
            times: part(seed, 52, 8),
            ..event.repeat
        },
        ..event
    }
}

#[test]
fn beside_a_look_at_every_day(rt: HostRuntime) {
    let mut seed = 20_000_101;
    for _ in 0..4000 {
        seed = drawn(seed);
        let event = some_event(seed);
        seed = drawn(seed);
        let day = part(seed, 8, 120);
        let a = part(seed, 16, 60);
        let left_out = [a, a + 1 + part(seed, 24, 3), a + 4 + part(seed, 32, 60)];
        let (next, count) = look(event, left_out, day);
        tells(&rt, event, &left_out, day, next, Some(count));
    }
}
