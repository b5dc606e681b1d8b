// What the machine is told and what it does, and why it does not; and the numbers that stand for them outside.
ghost use Rattle.std.specs.Prelude.{◌≡◌, ◌+◌, ◌*◌, ◌%◌, ◌<◌, ◌≤◌, MatchOption};
ghost use Rattle.pages.specs.Deeds.{side_number};
ghost use Rattle.engine.specs.Acts.{event_in, refusal_number, told, told_number};
ghost use Rattle.engine.specs.Entry.{event_of};

use pages::side::Side;
use std::error::Error;
use std::fmt;

#[derive(Clone, Copy, Debug, PartialEq, Eq)]
pub enum Event<'a> {
    // Power is there; how many pages each device has.
    On(u64),
    // A command.
    Said(&'a [u8]),
    // The page that was asked for.
    Page(&'a [u8]),
    // The last act is done.
    Next,
}

// What is written or shown stands at the front of the lent row.
#[derive(Clone, Copy, Debug, PartialEq, Eq)]
pub enum Act {
    // A side and a page.
    Read(Side, u64),
    Write(Side, u64),
    // A row of so many bytes.
    Shows(usize),
    Done,
}

// Why a command is refused, or an act is not done. Each has its number outside.
#[derive(Clone, Copy, Debug, PartialEq, Eq)]
pub enum Refusal {
    // The memory, the row or the kind of what is told is none that a house has.
    Misused,
    NoCommand,
    NotKnown,
    NoSuch,
    NameTaken,
    TooMany,
    NoRoom,
    // What was told is not expected, or the memory is not the machine's own.
    Fault,
}

impl From<Refusal> for u64 {
    ghost from_gives = { λ r n. n ≡ refusal_number r };

    fn from(refusal: Refusal) -> u64 {
        match refusal {
            Refusal::Misused => 0,
            Refusal::NoCommand => 1,
            Refusal::NotKnown => 2,
            Refusal::NoSuch => 3,
            Refusal::NameTaken => 4,
            Refusal::TooMany => 7,
            Refusal::NoRoom => 8,
            Refusal::Fault => 999,
        }
    }
}

impl fmt::Display for Refusal {
    fn fmt<W: fmt::Write>(&self, f: &mut fmt::Formatter<W>) -> fmt::Result {
        f.write_str(match self {
            Refusal::Misused => "no house has such a memory or row, or is told so",
            Refusal::NoCommand => "these bytes are no command",
            Refusal::NotKnown => "not known yet",
            Refusal::NoSuch => "no such person or event, or the event does not fall on that day",
            Refusal::NameTaken => "somebody has that name",
            Refusal::TooMany => "there are as many as there may be",
            Refusal::NoRoom => "no room",
            Refusal::Fault => "a fault of the machine",
        })
    }
}

impl Error for Refusal {}

impl<'a> Event<'a> {
    // The event of a kind and some bytes: 0 power, with how many pages each device has in eight bytes, 1 a command, 2 a page, 3 go on.
    pub fn of(kind: u64, bytes: &'a [u8]) -> Option<Event<'a>>
        ensures { MatchOption result (3 < kind) (λ e. (kind ≤ 3) × (event_in e ≡ event_of kind bytes.now)) }
    {
        match kind {
            0 => Some(Event::On(pages::bytes::number(bytes))),
            1 => Some(Event::Said(bytes)),
            2 => Some(Event::Page(bytes)),
            3 => Some(Event::Next),
            _ => None,
        }
    }
}

// What is told as one number: eight times its own, and 0 for done, 1 read, 2 write, 3 shows, 4 no. A place is twice the page, and the side.
pub fn numbered(answer: Result<Act, Refusal>) -> u64
    ensures { result ≡ told_number (told answer) }
{
    match answer {
        Ok(Act::Done) => 0,
        Ok(Act::Read(side, page)) => 8 * place(side, page) + 1,
        Ok(Act::Write(side, page)) => 8 * place(side, page) + 2,
        Ok(Act::Shows(size)) => 8 * (size as u64 % 2305843009213693952) + 3,
        Err(refusal) => 8 * u64::from(refusal) + 4,
    }
}

// Twice the page, and the side; of a page above 2^60 the highest bits are lost.
fn place(side: Side, page: u64) -> u64
    ensures { result ≡ (2 * page + side_number side) % 2305843009213693952 }
{
    2 * (page % 1152921504606846976) + u64::from(side)
}
