// Dates, times of day and lengths read from text, as they are written: 2026-03-30, 07:00 and 2:00.
ghost use Rattle.std.specs.Prelude.{◌≡◌, ◌<◌, IfSome, Some, Ok, Err, MatchResult};
ghost use Rattle.dates.specs.Back.{DateReadBack, ClockReadBack, LengthReadBack};
ghost use Rattle.dates.specs.Read.{digit_of, two_of, date_parts, date_read, clock_parts, clock_read, length_parts, length_read, said};

use crate::calendar::{FIRST_YEAR, LAST_YEAR};
use crate::civil::Date;
use crate::text::{Clock, Length};
use std::error::Error;
use std::fmt;

// Why a text is no date, time of day or length.
#[derive(Clone, Copy, PartialEq, Eq, Debug)]
pub enum Misread {
    NoDate,
    NoClock,
    NoLength,
    Year,
    Month,
    Day,
    Hour,
    Minute,
}

impl fmt::Display for Misread {
    ghost output = { λ e. Some (said e) };

    fn fmt<W: fmt::Write>(&self, f: &mut fmt::Formatter<W>) -> fmt::Result {
        f.write_str(match self {
            Misread::NoDate => "no date: it is not written as 2026-03-30",
            Misread::NoClock => "no time of day: it is not written as 07:00",
            Misread::NoLength => "no length: it is not written as 2:00",
            Misread::Year => "no date: the year is not 2000 to 2199",
            Misread::Month => "no date: the month is not 1 to 12",
            Misread::Day => "no date: the month has no such day",
            Misread::Hour => "no time of day: the hour is not 0 to 23",
            Misread::Minute => "the minutes are not 0 to 59",
        })
    }
}

impl Error for Misread {}

#[tactic(auto, unfolding(crate::specs::Read::digit_of))]
fn digit(byte: u8) -> Option<u64>
    ensures is { result ≡ digit_of byte }
    ensures small { IfSome result (λ n. n < 10) }
{
    byte.is_ascii_digit().then(|| (byte - b'0') as u64)
}

fn two_digits(tens: u8, ones: u8) -> Option<u64>
    ensures is { result ≡ two_of tens ones }
    ensures small { IfSome result (λ n. n < 100) }
{
    Some(10 * digit(tens)? + digit(ones)?)
}

// The year, month and day that stand there, be they a date or not.
#[tactic(auto, unfolding(crate::specs::Read::is_at, crate::specs::Read::digit_at))]
fn date_parts(text: &[u8]) -> Option<(u64, u64, u64)>
    ensures { result ≡ date_parts text.now }
{
    let &[a, b, c, d, b'-', e, f, b'-', g, h] = text else {
        return None;
    };
    let year = 100 * two_digits(a, b)? + two_digits(c, d)?;
    Some((year, two_digits(e, f)?, two_digits(g, h)?))
}

// A date, as 2026-03-30.
impl TryFrom<&[u8]> for Date {
    type Error = Misread;

    ghost try_from_gives = { λ text r. MatchResult r (λ x. date_read text.now ≡ Ok (x.year, x.month, x.day)) (λ e. date_read text.now ≡ Err e) };

    fn try_from(text: &[u8]) -> Result<Date, Misread> {
        let (year, month, day) = date_parts(text).ok_or(Misread::NoDate)?;
        if !(FIRST_YEAR..=LAST_YEAR).contains(&year) {
            return Err(Misread::Year);
        }
        if !(1..=12).contains(&month) {
            return Err(Misread::Month);
        }
        Date::new(year, month, day).ok_or(Misread::Day)
    }
}

#[tactic(auto, unfolding(crate::specs::Read::is_at, crate::specs::Read::digit_at))]
fn clock_parts(text: &[u8]) -> Option<(u64, u64)>
    ensures { result ≡ clock_parts text.now }
{
    let &[a, b, b':', c, d] = text else {
        return None;
    };
    Some((two_digits(a, b)?, two_digits(c, d)?))
}

// The minute of the day, from a text such as 07:00.
impl TryFrom<&[u8]> for Clock {
    type Error = Misread;

    ghost try_from_gives = { λ text r. MatchResult r (λ t. (clock_read text.now ≡ Ok t.0) × (t.0 < 1440)) (λ e. clock_read text.now ≡ Err e) };

    fn try_from(text: &[u8]) -> Result<Clock, Misread> {
        let (hour, minute) = clock_parts(text).ok_or(Misread::NoClock)?;
        if hour > 23 {
            return Err(Misread::Hour);
        }
        if minute > 59 {
            return Err(Misread::Minute);
        }
        Ok(Clock(60 * hour + minute))
    }
}

// Hours of one to three digits, of which the first is 0 in 0 alone.
#[tactic(auto, unfolding(crate::specs::Read::is_at, crate::specs::Read::digit_at))]
fn length_parts(text: &[u8]) -> Option<(u64, u64)>
    ensures is { result ≡ length_parts text.now }
    ensures small { IfSome result (λ p. p.0 < 1000) }
{
    match *text {
        [h, b':', a, b] => Some((digit(h)?, two_digits(a, b)?)),
        [g, h, b':', a, b] if g != b'0' => Some((two_digits(g, h)?, two_digits(a, b)?)),
        [f, g, h, b':', a, b] if f != b'0' => {
            let hours = 10 * two_digits(f, g)? + digit(h)?;
            Some((hours, two_digits(a, b)?))
        }
        _ => None,
    }
}

// A length such as 2:00, which is below 1000 hours.
impl TryFrom<&[u8]> for Length {
    type Error = Misread;

    ghost try_from_gives = { λ text r. MatchResult r (λ n. (length_read text.now ≡ Ok n.0) × (n.0 < 60000)) (λ e. length_read text.now ≡ Err e) };

    fn try_from(text: &[u8]) -> Result<Length, Misread> {
        let (hours, minutes) = length_parts(text).ok_or(Misread::NoLength)?;
        if minutes > 59 {
            return Err(Misread::Minute);
        }
        Ok(Length(60 * hours + minutes))
    }
}

// What is written is read back.
#[tactic(auto, using(crate::proofs::ReadBack::date_back, crate::proofs::ReadBack::clock_back, crate::proofs::ReadBack::length_back))]
pub fn reads_back()
    ensures date { DateReadBack }
    ensures clock { ClockReadBack }
    ensures length { LengthReadBack }
{}
