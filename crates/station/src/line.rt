// A line in words.
use crate::bad::Bad;
use crate::command::Command;
use crate::event::{read_event, read_text, read_zone};
use crate::numbers::{day, event_number, long, people, person, some_word, stretch, time};
use crate::spell::put_command;
use crate::words::Words;
use crate::zones::read_zone_rules;
use pages::hex;
use std::alloc::Global;

#[derive(Drop)]
pub enum Line<'a> {
    // An empty line or a comment.
    Nothing,
    Quit,
    // Help on a word, or on everything.
    Help(Option<&'a [u8]>),
    // A command's bytes.
    Say(Vec<u8>),
}

pub fn read_line<'a>(heap: Global, words: &mut Words<'a>) -> Result<Line<'a>, Bad> {
    let Some(first) = words.next() else {
        return Ok(Line::Nothing);
    };
    if let [b'#', ..] = first {
        return Ok(Line::Nothing);
    }
    let line = match first {
        b"quit" => Line::Quit,
        b"help" => Line::Help(words.next()),
        b"hex" => Line::Say(read_hex(heap, words)?),
        _ => {
            let command = read_command(heap, first, words)?;
            let mut bytes = Vec::new(heap);
            put_command(&mut bytes, &command)?;
            Line::Say(bytes)
        }
    };
    match words.next() {
        Some(_) => Err(Bad::Wants("there are words too many")),
        None => Ok(line),
    }
}

fn read_hex(heap: Global, words: &mut Words<'_>) -> Result<Vec<u8>, Bad> {
    let wants = "hex and a command's bytes in pairs of hexadecimal digits, or - for none";
    hex::read(heap, some_word(words, wants)?)?.ok_or(Bad::Wants(wants))
}

fn read_command(heap: Global, first: &[u8], words: &mut Words<'_>) -> Result<Command, Bad> {
    // The words are given: docs/FORMATS.md has them.
    match first {
        b"join" => Ok(Command::Join {
            name: read_text(heap, words, 64, "a name stands here, of 1 to 64 bytes")?,
        }),
        b"zone" => Ok(Command::Zone {
            number: read_zone(words)?,
            zone: read_zone_rules(words)?,
        }),
        b"put" => Ok(Command::Put {
            person: person(words)?,
            event: read_event(heap, words)?,
        }),
        b"change" => Ok(Command::Change {
            person: person(words)?,
            number: event_number(words)?,
            event: read_event(heap, words)?,
        }),
        b"drop" => Ok(Command::DropEvent {
            person: person(words)?,
            number: event_number(words)?,
        }),
        b"skip" => Ok(Command::Skip {
            person: person(words)?,
            number: event_number(words)?,
            day: day(words)?,
        }),
        _ => read_question(heap, first, words),
    }
}

// The commands that change nothing.
fn read_question(heap: Global, first: &[u8], words: &mut Words<'_>) -> Result<Command, Bad> {
    // The words are given: docs/FORMATS.md has them.
    match first {
        b"list" => Ok(Command::List {
            person: person(words)?,
            stretch: stretch(words)?,
        }),
        b"busy" => Ok(Command::Busy {
            people: people(heap, words)?,
            stretch: stretch(words)?,
        }),
        b"free" => Ok(Command::Free {
            people: people(heap, words)?,
            long: long(words)?,
            stretch: stretch(words)?,
        }),
        b"next" => Ok(Command::Next {
            person: person(words)?,
            from: time(words)?,
        }),
        b"shown" => Ok(Command::Shown {
            person: person(words)?,
            number: event_number(words)?,
        }),
        _ => Err(Bad::Wants("no command begins with this word")),
    }
}
