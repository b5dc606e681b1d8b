// Commands read from bytes.
ghost use Rattle.std.specs.Prelude.{◌≡◌};
ghost use Rattle.records.specs.Reader.{stretch, sunday, a_place, repeating, timing, draft, ended, find_join, find_zone, find_put, find_change, find_drop, find_skip, find_list, find_busy, find_free, find_next, find_shown, found_as, found};
ghost use Rattle.records.specs.Reads.{Reads};
ghost use Rattle.records.specs.Promise.{SpelledOnce};

use crate::command::{Command, Draft, Stretch};
use crate::field::{field_at, kind_of, row_at, text_at, weekdays_at};
use dates::zone::{Sunday, Zone};
use recurrence::event::{Event, Repeat};

fn stretch_at(bytes: &[u8], at: usize) -> Option<(Stretch, usize)>
    ensures { result ≡ stretch bytes.now at }
{
    let (from, at) = field_at(bytes, at, 15840, 105119999)?;
    let (to, at) = field_at(bytes, at, 15840, 105119999)?;
    if from >= to || to - from > 576000 {
        return None;
    }
    Some((Stretch { from, to }, at))
}

fn sunday_at(bytes: &[u8], at: usize) -> Option<(Sunday, usize)>
    ensures { result ≡ sunday bytes.now at }
{
    let (month, at) = field_at(bytes, at, 1, 12)?;
    let (week, at) = field_at(bytes, at, 1, 5)?;
    Some((Sunday { month, week }, at))
}

fn zone_at(bytes: &[u8], at: usize) -> Option<(Zone, usize)>
    ensures { result ≡ a_place bytes.now at }
{
    let (east, at) = field_at(bytes, at, 0, 1560)?;
    let (extra, at) = field_at(bytes, at, 0, 120)?;
    let (begins, at) = sunday_at(bytes, at)?;
    let (ends, at) = sunday_at(bytes, at)?;
    let (minute, at) = field_at(bytes, at, 0, 1439)?;
    // Clocks that are put on are put back in another month.
    if begins.month == ends.month && extra > 0 {
        return None;
    }
    Some((
        Zone {
            east,
            extra,
            begins,
            ends,
            minute,
        },
        at,
    ))
}

// Inlined, as are the fields that it is made of: handed back by way of memory, they made a put take half as long again.
#[inline(always)]
fn repeat_at(bytes: &[u8], at: usize) -> Option<(Repeat, usize)>
    ensures { result ≡ repeating bytes.now at }
{
    let (kind, at) = field_at(bytes, at, 0, 6)?;
    let (step, at) = field_at(bytes, at, 1, 1000)?;
    let (weekdays, at) = weekdays_at(bytes, at)?;
    let (times, at) = field_at(bytes, at, 0, 10000)?;
    let (last, at) = field_at(bytes, at, 11, 72999)?;
    Some((
        Repeat {
            kind: kind_of(kind),
            step,
            weekdays,
            times,
            last,
        },
        at,
    ))
}

// An event between its title and the days left out.
fn event_at(bytes: &[u8], at: usize) -> Option<(Event, usize)>
    ensures { result ≡ timing bytes.now at }
{
    let (zone, at) = field_at(bytes, at, 0, 15)?;
    let (first, at) = field_at(bytes, at, 11, 72999)?;
    let (minute, at) = field_at(bytes, at, 0, 1439)?;
    let (long, at) = field_at(bytes, at, 1, 10080)?;
    let (busy, at) = field_at(bytes, at, 0u8, 1)?;
    let (repeat, at) = repeat_at(bytes, at)?;
    Some((
        Event {
            zone,
            first,
            minute,
            long,
            busy: busy == 1,
            repeat,
        },
        at,
    ))
}

fn draft_at(bytes: &[u8], at: usize) -> Option<(Draft, usize)>
    ensures { result ≡ draft bytes.now at }
{
    let (title, at) = text_at(bytes, at, 0, 255)?;
    let (event, at) = event_at(bytes, at)?;
    let (left_out, at) = row_at(bytes, at, 0, 1000, 11, 72999)?;
    Some((
        Draft {
            title,
            event,
            left_out,
        },
        at,
    ))
}

// A command, if its text ends where it does.
fn end_at(bytes: &[u8], at: usize, command: Command) -> Option<Command>
    ensures { result ≡ ended bytes.now at command }
{
    (at == bytes.len()).then_some(command)
}

// Each command has a reader of its own, those of a person and an event too: each is one line of the format, with its definition.
fn join(bytes: &[u8]) -> Option<Command>
    ensures { result ≡ find_join bytes.now }
{
    let (name, at) = text_at(bytes, 1, 1, 64)?;
    end_at(bytes, at, Command::Join(name))
}

fn set_zone(bytes: &[u8]) -> Option<Command>
    ensures { result ≡ find_zone bytes.now }
{
    let (number, at) = field_at(bytes, 1, 0, 15)?;
    let (zone, at) = zone_at(bytes, at)?;
    end_at(bytes, at, Command::SetZone(number, zone))
}

fn put(bytes: &[u8]) -> Option<Command>
    ensures { result ≡ find_put bytes.now }
{
    let (person, at) = field_at(bytes, 1, 0, 255)?;
    let (draft, at) = draft_at(bytes, at)?;
    end_at(bytes, at, Command::Put(person, draft))
}

fn change(bytes: &[u8]) -> Option<Command>
    ensures { result ≡ find_change bytes.now }
{
    let (person, at) = field_at(bytes, 1, 0, 255)?;
    let (number, at) = field_at(bytes, at, 0, u64::MAX)?;
    let (draft, at) = draft_at(bytes, at)?;
    end_at(bytes, at, Command::Change(person, number, draft))
}

fn drop_event(bytes: &[u8]) -> Option<Command>
    ensures { result ≡ find_drop bytes.now }
{
    let (person, at) = field_at(bytes, 1, 0, 255)?;
    let (number, at) = field_at(bytes, at, 0, u64::MAX)?;
    end_at(bytes, at, Command::DropEvent(person, number))
}

fn skip(bytes: &[u8]) -> Option<Command>
    ensures { result ≡ find_skip bytes.now }
{
    let (person, at) = field_at(bytes, 1, 0, 255)?;
    let (number, at) = field_at(bytes, at, 0, u64::MAX)?;
    let (day, at) = field_at(bytes, at, 11, 72999)?;
    end_at(bytes, at, Command::Skip(person, number, day))
}

fn listing(bytes: &[u8]) -> Option<Command>
    ensures { result ≡ find_list bytes.now }
{
    let (person, at) = field_at(bytes, 1, 0, 255)?;
    let (stretch, at) = stretch_at(bytes, at)?;
    end_at(bytes, at, Command::Listing(person, stretch))
}

fn busy_times(bytes: &[u8]) -> Option<Command>
    ensures { result ≡ find_busy bytes.now }
{
    let (people, at) = row_at(bytes, 1, 1, 16, 0, 255)?;
    let (stretch, at) = stretch_at(bytes, at)?;
    end_at(bytes, at, Command::Busy(people, stretch))
}

fn free_time(bytes: &[u8]) -> Option<Command>
    ensures { result ≡ find_free bytes.now }
{
    let (people, at) = row_at(bytes, 1, 1, 16, 0, 255)?;
    let (minutes, at) = field_at(bytes, at, 1, 10080)?;
    let (stretch, at) = stretch_at(bytes, at)?;
    end_at(bytes, at, Command::Free(people, minutes, stretch))
}

fn next_one(bytes: &[u8]) -> Option<Command>
    ensures { result ≡ find_next bytes.now }
{
    let (person, at) = field_at(bytes, 1, 0, 255)?;
    let (time, at) = field_at(bytes, at, 15840, 105119999)?;
    end_at(bytes, at, Command::Next(person, time))
}

fn shown(bytes: &[u8]) -> Option<Command>
    ensures { result ≡ find_shown bytes.now }
{
    let (person, at) = field_at(bytes, 1, 0, 255)?;
    let (number, at) = field_at(bytes, at, 0, u64::MAX)?;
    end_at(bytes, at, Command::Shown(person, number))
}

// The commands' numbers are those that their texts are given.
fn by_kind(kind: u8, bytes: &[u8]) -> Option<Command>
    ensures { result ≡ found_as kind bytes.now }
{
    match kind {
        1 => join(bytes),
        2 => set_zone(bytes),
        3 => put(bytes),
        4 => change(bytes),
        5 => drop_event(bytes),
        6 => skip(bytes),
        7 => listing(bytes),
        8 => busy_times(bytes),
        9 => free_time(bytes),
        10 => next_one(bytes),
        11 => shown(bytes),
        _ => None,
    }
}

// The command that these bytes spell; none where they spell no command that fits. No two commands are spelled alike.
pub fn read(bytes: &[u8]) -> Option<Command>
    ensures value { result ≡ found bytes.now }
    ensures meaning { Reads bytes.now result }
    ensures once { SpelledOnce }
{
    by_kind(*bytes.first()?, bytes)
}
