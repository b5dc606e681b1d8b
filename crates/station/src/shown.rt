// An event in the words that put takes.
use crate::event::{FOR_EVER, WEEKDAYS};
use dates::civil::Date;
use dates::text::{Clock, Length};
use host::parts::{NoWords, Parts};
use recurrence::event::Kind;
use std::io::Write;

// A text in quotes; what is not printed stands as its number. It need not be UTF-8, so it is no Display.
pub fn put_quoted(answer: &mut Vec<u8>, text: &[u8]) -> Result<(), NoWords> {
    answer.push(b'"')?;
    for b in text {
        if b.is_ascii_control() {
            let n = *b;
            write!(answer, "\\{n}")?;
        } else {
            answer.push(*b)?;
        }
    }
    answer.push(b'"')?;
    Ok(())
}

fn day(parts: &mut Parts<'_>) -> Result<Date, NoWords> {
    Date::from_day(parts.eight()?).ok_or(NoWords)
}

pub fn put_event_words(answer: &mut Vec<u8>, parts: &mut Parts<'_>) -> Result<(), NoWords> {
    put_quoted(answer, parts.text()?)?;
    let zone = parts.byte()?;
    let first = day(parts)?;
    let minute = Clock(parts.eight()?);
    let long = Length(parts.eight()?);
    write!(answer, " on {first} at {minute} for {long}")?;
    if zone != 0 {
        write!(answer, " zone {zone}")?;
    }
    if parts.byte()? == 0 {
        write!(answer, " free")?;
    }
    put_repeat_words(answer, parts)?;
    put_left_out(answer, parts)
}

fn put_left_out(answer: &mut Vec<u8>, parts: &mut Parts<'_>) -> Result<(), NoWords> {
    let count = parts.eight()?;
    if count > 0 {
        write!(answer, " without")?;
    }
    // Counted: the row says how many days follow.
    for _ in 0..count {
        let day = day(parts)?;
        write!(answer, " {day}")?;
    }
    Ok(())
}

// Kind is another crate's, so its words here are no Display.
fn unit(kind: Kind) -> &'static str {
    match kind {
        Kind::Once => "once",
        Kind::Daily => "days",
        Kind::Weekly => "weeks on",
        Kind::Monthly => "months",
        Kind::MonthlyByWeekday => "months on the same weekday",
        Kind::MonthlyByLastWeekday => "months on the last weekday",
        Kind::Yearly => "years",
    }
}

fn put_repeat_words(answer: &mut Vec<u8>, parts: &mut Parts<'_>) -> Result<(), NoWords> {
    let kind = parts.byte()?;
    let kind = Kind::try_from(kind).map_err(|_| NoWords)?;
    let step = parts.eight()?;
    if kind != Kind::Once {
        let unit = unit(kind);
        write!(answer, " every {step} {unit}")?;
    }
    let count = parts.eight()?;
    // Counted: the row says how many weekdays follow.
    for _ in 0..count {
        let name = weekday_name(parts.eight()?)?;
        if kind == Kind::Weekly {
            write!(answer, " {name}")?;
        }
    }
    let times = parts.eight()?;
    let last = parts.eight()?;
    if last != FOR_EVER {
        let last = Date::from_day(last).ok_or(NoWords)?;
        write!(answer, " until {last}")?;
    }
    if times != 0 {
        write!(answer, " times {times}")?;
    }
    Ok(())
}

fn weekday_name(n: u64) -> Result<&'static str, NoWords> {
    WEEKDAYS.get(n as usize).copied().ok_or(NoWords)
}
