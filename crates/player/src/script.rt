// A line of a script: what is to happen next.
ghost use Rattle.player.specs.Held.{Leaves};

use host::files::is_house;
use pages::hex;
use std::alloc::{AllocError, Global};
use std::error::Error;
use std::str::SplitWhitespace;
use std::{fmt, io};

// How much of the write under way a stop leaves.
#[derive(Clone, Copy, Debug, PartialEq, Eq)]
pub enum Left {
    Nothing,
    All,
    Half,
}

// 1 stands for all and 2 for half of it, and any other number for nothing.
impl From<u64> for Left {
    ghost from_gives = { λ number left. Leaves number left };

    fn from(number: u64) -> Left {
        match number {
            1 => Left::All,
            2 => Left::Half,
            _ => Left::Nothing,
        }
    }
}

#[derive(Drop)]
pub enum Item {
    Power,
    PowerStops {
        acts: u64,
        left: Left,
    },
    Whole(Vec<u8>),
    Stops {
        command: Vec<u8>,
        acts: u64,
        left: Left,
    },
    // The script's number: of a side that there is not it is improper.
    Loses(u64),
}

#[derive(Drop)]
pub enum Line {
    // An empty line or a comment.
    Nothing,
    // A new house with so many pages on each side.
    Pages(usize),
    Item(Item),
}

#[derive(Clone, Copy, Debug, PartialEq, Eq)]
pub enum Bad {
    NotText,
    NoSuchWord,
    TooFewWords,
    TooManyWords,
    NotANumber,
    NotHex,
    NotSoManyPages,
    NoMemory,
    PagesFirst,
}

impl fmt::Display for Bad {
    fn fmt<W: fmt::Write>(&self, f: &mut fmt::Formatter<W>) -> fmt::Result {
        let why = match self {
            Bad::NotText => "this is not text",
            Bad::NoSuchWord =>
                "a line begins with pages, power, power-stops, whole, stops or loses",
            Bad::TooFewWords => "words are missing",
            Bad::TooManyWords => "there are words too many",
            Bad::NotANumber => "a number stands here, below 2^64",
            Bad::NotHex => "a command stands here in pairs of hexadecimal digits, or - for none",
            Bad::NotSoManyPages => "a house has 256 to 1048576 pages",
            Bad::NoMemory => "there is no memory for it",
            Bad::PagesFirst => "pages comes first",
        };
        f.write_str(why)
    }
}

impl Error for Bad {}

impl From<AllocError> for Bad {
    fn from(_e: AllocError) -> Bad {
        Bad::NoMemory
    }
}

// What is written is an answer in memory.
impl From<io::Error> for Bad {
    fn from(_e: io::Error) -> Bad {
        Bad::NoMemory
    }
}

pub fn read_line(heap: Global, line: &[u8]) -> Result<Line, Bad> {
    let text = std::str::from_utf8(line).map_err(|_| Bad::NotText)?;
    let mut words = text.split_whitespace();
    let Some(first) = words.next() else {
        return Ok(Line::Nothing);
    };
    if first.starts_with('#') {
        return Ok(Line::Nothing);
    }
    let line = match first {
        "pages" => Line::Pages(some_pages(&mut words)?),
        word => Line::Item(read_item(heap, word, &mut words)?),
    };
    match words.next() {
        Some(_) => Err(Bad::TooManyWords),
        None => Ok(line),
    }
}

fn read_item(heap: Global, first: &str, words: &mut SplitWhitespace<'_>) -> Result<Item, Bad> {
    // The words are given: docs/FORMATS.md has them.
    match first {
        "power" => Ok(Item::Power),
        "power-stops" => Ok(Item::PowerStops {
            acts: number(words)?,
            left: Left::from(number(words)?),
        }),
        "whole" => Ok(Item::Whole(bytes(heap, words)?)),
        "stops" => Ok(Item::Stops {
            command: bytes(heap, words)?,
            acts: number(words)?,
            left: Left::from(number(words)?),
        }),
        "loses" => Ok(Item::Loses(number(words)?)),
        _ => Err(Bad::NoSuchWord),
    }
}

fn some_pages(words: &mut SplitWhitespace<'_>) -> Result<usize, Bad> {
    let pages = number(words)?;
    if !is_house(pages) {
        return Err(Bad::NotSoManyPages);
    }
    Ok(pages as usize)
}

fn number(words: &mut SplitWhitespace<'_>) -> Result<u64, Bad> {
    let word = words.next().ok_or(Bad::TooFewWords)?;
    word.parse::<u64>().map_err(|_| Bad::NotANumber)
}

fn bytes(heap: Global, words: &mut SplitWhitespace<'_>) -> Result<Vec<u8>, Bad> {
    let word = words.next().ok_or(Bad::TooFewWords)?;
    hex::read(heap, word.as_bytes())?.ok_or(Bad::NotHex)
}
