// The command that the board says: what meets a stretch of time, of one person.
ghost use Rattle.std.specs.Prelude.{◌≡◌, IfOk};
ghost use Rattle.records.specs.Command.{list, spelled};

use dates::civil::Date;
use dates::read::Misread;
use dates::text::Clock;
use host::spell::put_code;
use std::alloc::{AllocError, Global};

pub fn list_command(heap: Global, person: u64, from: u64, to: u64) -> Result<Vec<u8>, AllocError>
    ensures { IfOk result (λ v. v.items ≡ spelled (list person from to)) }
{
    let mut out = Vec::new(heap);
    put_code(&mut out, 7, &[person, from, to])?;
    Ok(out)
}

// A day's midnight, or a day and the time of it behind a T.
// As the station's time, which may also have the clock as a word of its own.
pub fn read_time(word: &[u8]) -> Result<u64, Misread> {
    let (date, minute) = if word.len() > 10 && word[10] == b'T' {
        (&word[0..10], Clock::try_from(&word[11..])?.0)
    } else {
        (word, 0)
    };
    let day = Date::try_from(date)?.to_day();
    Ok(1440 * day + minute)
}
