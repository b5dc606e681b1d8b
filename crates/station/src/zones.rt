// A zone in words: east +1:00, and with a summer also
// summer 1:00 from last sunday of 3 to last sunday of 10 at 02:00
use crate::bad::Bad;
use crate::numbers::{clock, expect, long, number, some_word};
use crate::words::Words;
use dates::text::Length;
use dates::zone::{Sunday, Zone};

pub fn read_zone_rules(words: &mut Words<'_>) -> Result<Zone, Bad> {
    expect(
        words,
        b"east",
        "east and hours and minutes come after the zone's number, as east +1:00",
    )?;
    let east = read_east(some_word(words, EAST)?)?;
    if !words.skip(b"summer") {
        let first = Sunday { month: 1, week: 1 };
        return Ok(Zone {
            east,
            extra: 0,
            begins: first,
            ends: first,
            minute: 0,
        });
    }
    read_summer(words, east)
}

fn read_summer(words: &mut Words<'_>, east: u64) -> Result<Zone, Bad> {
    let extra = long(words)?;
    expect(
        words,
        b"from",
        "from and a sunday come after the minutes of summer",
    )?;
    let begins = read_sunday(words)?;
    expect(
        words,
        b"to",
        "to and a sunday come after summer's first day",
    )?;
    let ends = read_sunday(words)?;
    expect(
        words,
        b"at",
        "at and a time of day come after summer's last day",
    )?;
    Ok(Zone {
        east,
        extra,
        begins,
        ends,
        minute: clock(words)?,
    })
}

const EAST: &str = "east stands from -12:00 to +14:00, as +1:00 or -5:00";

// Minutes east, and 720 more.
fn read_east(word: &[u8]) -> Result<u64, Bad> {
    let east = match word {
        [b'-', west @ ..] => 720u64.checked_sub(Length::try_from(west)?.0),
        [b'+', east @ ..] => Some(720 + Length::try_from(east)?.0),
        _ => Some(720 + Length::try_from(word)?.0),
    };
    east.filter(|minutes| *minutes <= 1560)
        .ok_or(Bad::Wants(EAST))
}

fn read_sunday(words: &mut Words<'_>) -> Result<Sunday, Bad> {
    let wants = "a sunday stands here, as last sunday of 10";
    // As Sunday has it: 5 is the last.
    let week = match some_word(words, wants)? {
        b"first" => 1,
        b"second" => 2,
        b"third" => 3,
        b"fourth" => 4,
        b"last" => 5,
        _ => return Err(Bad::Wants(wants)),
    };
    if !words.skip(b"Sunday") {
        expect(words, b"sunday", wants)?;
    }
    expect(words, b"of", wants)?;
    let month = number(words, "a month is a number from 1 to 12")?;
    if month < 1 || month > 12 {
        return Err(Bad::Wants("a month is a number from 1 to 12"));
    }
    Ok(Sunday {
        month: month as u8,
        week,
    })
}
