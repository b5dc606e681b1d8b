// An event written to bytes, as it is spelled. Each writer takes a place in the row and gives the place behind what it wrote: rows that shrink
// would be no plainer, as each contract says what the whole row is then.
ghost use Rattle.std.specs.Prelude.{◌≡◌, ◌+◌, ◌*◌, ◌≤◌, length, if◌then◌else◌, Some, None};
ghost use Rattle.pages.specs.Bytes.{with_length, over, placed};
ghost use Rattle.recurrence.specs.Value.{repeat_of, event_with};
ghost use Rattle.recurrence.specs.Week.{days_of};
ghost use Rattle.records.specs.Command.{numbers, repeat_spelled, event_spelled};
ghost use Rattle.records.specs.Written.{timing_spelled, writes};

use crate::place::{put_all, put_byte, put_bytes, put_number};
use recurrence::event::{Event, Repeat, Weekdays};

// Bytes with their count before them; the place behind them.
fn put_text(out: &mut [u8], at: usize, text: &[u8]) -> usize
    requires { at + 8 + length text.now ≤ length out.old }
    ensures end { result ≡ at + 8 + length text.now }
    ensures row { out.new ≡ placed at (with_length text.now) out.old }
{
    put_number(out, at, 8, text.len() as u64);
    put_bytes(out, at + 8, text);
    at + 8 + text.len()
}

// Numbers with their count before them; the place behind them.
fn put_numbers(out: &mut [u8], at: usize, ns: &[u64]) -> usize
    requires { at + 8 + 8 * length ns.now ≤ length out.old }
    ensures end { result ≡ at + 8 + 8 * length ns.now }
    ensures row { out.new ≡ placed at (numbers ns.now) out.old }
{
    put_number(out, at, 8, ns.len() as u64);
    put_all(out, at + 8, 8, ns);
    at + 8 + 8 * ns.len()
}

// How many weekdays there are.
fn day_count(days: Weekdays) -> u64
    ensures { result ≡ length (days_of days) }
{
    // A loop for speed: by a filter that is counted it takes longer.
    let mut count = 0;
    for day in 0..7 {
        if days.has(day) {
            count += 1;
        }
    }
    count
}

// Weekdays by number with their count before them; the place behind them.
fn put_days(out: &mut [u8], at: usize, days: Weekdays) -> usize
    requires { at + 64 ≤ length out.old }
    ensures end { result ≡ at + 8 + 8 * length (days_of days) }
    ensures few { result ≤ at + 64 }
    ensures row { out.new ≡ placed at (numbers (days_of days)) out.old }
{
    put_number(out, at, 8, day_count(days));
    let mut end = at + 8;
    // No filter: tried, and the proof of which days are written by then didn't close.
    for day in 0..7 {
        if days.has(day) {
            put_number(out, end, 8, day);
            end += 8;
        }
    }
    end
}

// How an event repeats; the place behind it.
fn put_repeat(out: &mut [u8], at: usize, repeat: Repeat) -> usize
    requires { at + 89 ≤ length out.old }
    ensures end { result ≡ at + length (repeat_spelled (repeat_of repeat)) }
    ensures few { result ≤ at + 89 }
    ensures row { out.new ≡ placed at (repeat_spelled (repeat_of repeat)) out.old }
{
    put_byte(out, at, u8::from(repeat.kind));
    put_number(out, at + 1, 8, repeat.step);
    let next = put_days(out, at + 9, repeat.weekdays);
    put_number(out, next, 8, repeat.times);
    put_number(out, next + 8, 8, repeat.last);
    next + 16
}

// An event between its title and the days left out; the place behind it.
fn put_timing(out: &mut [u8], at: usize, event: Event) -> usize
    requires { at + 115 ≤ length out.old }
    ensures end { result ≡ at + length (timing_spelled event) }
    ensures few { result ≤ at + 115 }
    ensures row { out.new ≡ placed at (timing_spelled event) out.old }
{
    put_byte(out, at, event.zone);
    put_number(out, at + 1, 8, event.first);
    put_number(out, at + 9, 8, event.minute);
    put_number(out, at + 17, 8, event.long);
    put_byte(out, at + 25, u8::from(event.busy));
    put_repeat(out, at + 26, event.repeat)
}

// An event with what stays where it is lent: its title, and the days left out.
#[derive(Clone, Copy, Debug, PartialEq, Eq)]
pub struct Entry<'a> {
    pub event: Event,
    pub title: &'a [u8],
    pub left_out: &'a [u64],
}

// An event with its title and the days left out into the front of a row, as it is spelled; how many bytes that is. None, and the row as it
// was, where they are too many or the row may be too short.
pub fn write_event(out: &mut [u8], entry: &Entry) -> Option<usize>
    ensures value { result ≡ (if writes entry.now.title.now entry.now.left_out.now out.old then Some (length (event_spelled (event_with entry.now.event entry.now.title.now entry.now.left_out.now))) else None) }
    ensures row { out.new ≡ (if writes entry.now.title.now entry.now.left_out.now out.old then over (event_spelled (event_with entry.now.event entry.now.title.now entry.now.left_out.now)) out.old else out.old) }
{
    if entry.title.len() > 255 || entry.left_out.len() > 1000 || out.len() < 8386 {
        return None;
    }
    let at = put_text(out, 0, entry.title);
    let at = put_timing(out, at, entry.event);
    Some(put_numbers(out, at, entry.left_out))
}
