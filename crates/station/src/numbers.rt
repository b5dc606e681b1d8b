// Numbers, days and times among the words.
use crate::bad::Bad;
use crate::words::Words;
use dates::calendar::LAST_DAY;
use dates::civil::Date;
use dates::text::{Clock, Length};
use records::command::Stretch;
use std::alloc::Global;

pub fn some_word<'a>(words: &mut Words<'a>, wants: &'static str) -> Result<&'a [u8], Bad> {
    words.next().ok_or(Bad::Wants(wants))
}

// Goes past a word that has to stand there.
pub fn expect(words: &mut Words<'_>, word: &[u8], wants: &'static str) -> Result<(), Bad> {
    if words.skip(word) {
        Ok(())
    } else {
        Err(Bad::Wants(wants))
    }
}

pub fn parse_number(word: &[u8], wants: &'static str) -> Result<u64, Bad> {
    let text = std::str::from_utf8(word).map_err(|_| Bad::Wants(wants))?;
    text.parse::<u64>().map_err(|_| Bad::Wants(wants))
}

pub fn number(words: &mut Words<'_>, wants: &'static str) -> Result<u64, Bad> {
    parse_number(some_word(words, wants)?, wants)
}

const A_PERSON: &str = "a person is a number from 0 to 255";

fn parse_person(word: &[u8]) -> Result<u64, Bad> {
    let n = parse_number(word, A_PERSON)?;
    if n > 255 {
        return Err(Bad::Wants(A_PERSON));
    }
    Ok(n)
}

pub fn person(words: &mut Words<'_>) -> Result<u64, Bad> {
    parse_person(some_word(words, A_PERSON)?)
}

const PEOPLE: &str = "people are numbers with commas between them, as 0,2";

// People with commas between them, in rising order.
pub fn people(heap: Global, words: &mut Words<'_>) -> Result<Vec<u64>, Bad> {
    let word = some_word(words, PEOPLE)?;
    let text = std::str::from_utf8(word).map_err(|_| Bad::Wants(PEOPLE))?;
    let mut all = Vec::new(heap);
    for part in text.split(',') {
        all.push(parse_person(part.as_bytes())?)?;
    }
    all.sort_unstable();
    all.dedup();
    Ok(all)
}

pub fn event_number(words: &mut Words<'_>) -> Result<u64, Bad> {
    number(words, "an event is a number, as put answers it")
}

pub fn parse_day(word: &[u8]) -> Result<u64, Bad> {
    Ok(Date::try_from(word)?.to_day())
}

pub fn day(words: &mut Words<'_>) -> Result<u64, Bad> {
    parse_day(some_word(words, "a day stands here, as 2026-03-30")?)
}

pub fn clock(words: &mut Words<'_>) -> Result<u64, Bad> {
    Ok(Clock::try_from(some_word(words, "a time of day stands here, as 07:00")?)?.0)
}

pub fn long(words: &mut Words<'_>) -> Result<u64, Bad> {
    let word = some_word(words, "a length in hours and minutes stands here, as 2:00")?;
    Ok(Length::try_from(word)?.0)
}

fn minutes(day: u64, minute: u64) -> Result<u64, Bad> {
    if day > LAST_DAY || minute >= 1440 {
        return Err(Bad::Wants("that time is too far away"));
    }
    Ok(1440 * day + minute)
}

// A time: a day alone is its midnight; the time of day stands behind a T or as a word of its own.
pub fn time(words: &mut Words<'_>) -> Result<u64, Bad> {
    let word = some_word(
        words,
        "a time stands here, as 2026-03-30 or 2026-03-30T07:00",
    )?;
    if word.len() > 10 && word[10] == b'T' {
        let (date, clock) = word.split_at(10);
        return minutes(parse_day(date)?, Clock::try_from(&clock[1..])?.0);
    }
    let day = parse_day(word)?;
    match words.peek() {
        Some(next) if next.len() < 10 && next.contains(&b':') => minutes(day, clock(words)?),
        _ => minutes(day, 0),
    }
}

pub fn stretch(words: &mut Words<'_>) -> Result<Stretch, Bad> {
    Ok(Stretch {
        from: time(words)?,
        to: time(words)?,
    })
}
