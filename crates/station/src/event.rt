// An event in words: "title" on DAY at TIME for LENGTH, and then what else is said of it.
use crate::bad::Bad;
use crate::command::{Event, Repeat};
use crate::numbers::{clock, day, expect, long, number, some_word};
use crate::words::Words;
use recurrence::event::Kind;
use std::alloc::Global;

// The last day on which an event may fall where nothing else is said.
pub const FOR_EVER: u64 = 72_999;

// Monday is 0.
pub const WEEKDAYS: [&str; 7] = ["mon", "tue", "wed", "thu", "fri", "sat", "sun"];

// What stands between the quotes of a word, or the word where it has none; nothing where the second is missing.
fn unquoted(word: &[u8]) -> Option<&[u8]> {
    match word {
        [b'"', text @ .., b'"'] => Some(text),
        [b'"', ..] => None,
        _ => Some(word),
    }
}

// A word, or a text in quotes.
pub fn read_text(
    heap: Global,
    words: &mut Words<'_>,
    most: usize,
    wants: &'static str,
) -> Result<Vec<u8>, Bad> {
    let text = unquoted(some_word(words, wants)?).ok_or(Bad::Wants(
        "the closing quote is missing",
    ))?;
    if text.len() > most {
        return Err(Bad::Wants(wants));
    }
    Ok(Vec::from_slice(heap, text)?)
}

pub fn read_event(heap: Global, words: &mut Words<'_>) -> Result<Event, Bad> {
    let title = read_text(
        heap,
        words,
        255,
        "a title stands here in quotes, of at most 255 bytes",
    )?;
    expect(words, b"on", "on and a day come after the title")?;
    let first = day(words)?;
    expect(words, b"at", "at and a time of day come after the day")?;
    let minute = clock(words)?;
    expect(words, b"for", "for and a length come after the time of day")?;
    let mut event = Event {
        title,
        zone: 0,
        first,
        minute,
        long: long(words)?,
        busy: true,
        repeat: once(heap),
        left_out: Vec::new(heap),
    };
    // Counted, since a loop has to be seen to end, and the readers that it calls promise nothing of the words that are left.
    for _ in 0..words.left() {
        match words.next() {
            Some(word) => read_more(word, words, &mut event)?,
            None => break,
        }
    }
    event.left_out.sort_unstable();
    event.left_out.dedup();
    Ok(event)
}

fn once(heap: Global) -> Repeat {
    Repeat {
        kind: Kind::Once,
        step: 1,
        weekdays: Vec::new(heap),
        times: 0,
        last: FOR_EVER,
    }
}

fn read_more(word: &[u8], words: &mut Words<'_>, event: &mut Event) -> Result<(), Bad> {
    // The words are given: docs/FORMATS.md has them.
    match word {
        b"zone" => event.zone = read_zone(words)?,
        b"free" => event.busy = false,
        b"every" => read_every(words, &mut event.repeat)?,
        b"until" => event.repeat.last = day(words)?,
        b"times" => event.repeat.times = number(words, "times and a number")?,
        b"without" => read_days(words, &mut event.left_out)?,
        _ => return Err(Bad::Wants(
            "after the length come zone, free, every, until, times or without",
        )),
    }
    Ok(())
}

pub fn read_zone(words: &mut Words<'_>) -> Result<u8, Bad> {
    let wants = "a zone is a number from 0 to 15";
    let n = number(words, wants)?;
    if n > 15 {
        return Err(Bad::Wants(wants));
    }
    Ok(n as u8)
}

fn begins_with_digit(word: Option<&[u8]>) -> bool {
    match word {
        Some([first, ..]) => first.is_ascii_digit(),
        _ => false,
    }
}

fn read_days(words: &mut Words<'_>, days: &mut Vec<u64>) -> Result<(), Bad> {
    days.push(day(words)?)?;
    // Counted, since a loop has to be seen to end, and the readers that it calls promise nothing of the words that are left.
    for _ in 0..words.left() {
        if !begins_with_digit(words.peek()) {
            break;
        }
        days.push(day(words)?)?;
    }
    Ok(())
}

fn read_every(words: &mut Words<'_>, repeat: &mut Repeat) -> Result<(), Bad> {
    let wants = "every, a number, and days, weeks, months or years";
    if begins_with_digit(words.peek()) {
        repeat.step = number(words, wants)?;
    }
    let unit = some_word(words, wants)?;
    repeat.kind = match unit {
        b"day" | b"days" => Kind::Daily,
        b"week" | b"weeks" => {
            read_weekdays(words, &mut repeat.weekdays)?;
            Kind::Weekly
        }
        b"month" | b"months" => read_months(words)?,
        b"year" | b"years" => Kind::Yearly,
        _ => return Err(Bad::Wants(wants)),
    };
    Ok(())
}

fn weekday(word: Option<&[u8]>) -> Option<u64> {
    let word = word?;
    let day = WEEKDAYS.iter().position(|name| name.as_bytes() == word)?;
    Some(day as u64)
}

fn read_weekdays(words: &mut Words<'_>, weekdays: &mut Vec<u64>) -> Result<(), Bad> {
    let wants = "weeks on and some of mon tue wed thu fri sat sun";
    expect(words, b"on", wants)?;
    // Counted, since a loop has to be seen to end, and the readers that it calls promise nothing of the words that are left.
    for _ in 0..words.left() {
        let Some(n) = weekday(words.peek()) else {
            break;
        };
        weekdays.push(n)?;
        let _ = words.next();
    }
    if weekdays.is_empty() {
        return Err(Bad::Wants(wants));
    }
    weekdays.sort_unstable();
    weekdays.dedup();
    Ok(())
}

// Months alone are on the same day of the month.
fn read_months(words: &mut Words<'_>) -> Result<Kind, Bad> {
    let wants = "months, months on the same weekday, or months on the last weekday";
    if !words.skip(b"on") {
        return Ok(Kind::Monthly);
    }
    expect(words, b"the", wants)?;
    let kind = match some_word(words, wants)? {
        b"same" => Kind::MonthlyByWeekday,
        b"last" => Kind::MonthlyByLastWeekday,
        _ => return Err(Bad::Wants(wants)),
    };
    expect(words, b"weekday", wants)?;
    Ok(kind)
}
