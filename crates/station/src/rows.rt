// Rows in words.
use crate::shown::{put_event_words, put_quoted};
use dates::text::{Length, Time};
use host::machine::Shows;
use host::parts::{NoWords, Parts};
use pages::hex;
use std::alloc::Global;
use std::io;
use std::io::Write;

// What is answered to a line, and the number of the command whose rows are shown.
#[derive(Drop)]
pub struct Answer {
    pub text: Vec<u8>,
    // By number: hex says any bytes, and the first is the command's number.
    pub code: u8,
}

impl Answer {
    pub fn new(heap: Global) -> Answer {
        Answer {
            text: Vec::new(heap),
            code: 0,
        }
    }
}

impl Shows for Answer {
    fn show(&mut self, row: &[u8]) -> io::Result<()> {
        put_row(&mut self.text, self.code, row)
    }
}

// Writes a row of the answer to a command, by the command's number; in hexadecimal digits where it has no words.
// As the board's: one function for both would take two closures for these few lines.
fn put_row(answer: &mut Vec<u8>, code: u8, row: &[u8]) -> io::Result<()> {
    let start = answer.len();
    if put_words(answer, code, row).is_err() {
        answer.truncate(start);
        write!(answer, "row ")?;
        hex::write(answer, row)?;
    }
    writeln!(answer, "")
}

// The numbers of commands are those that stand first in their bytes.
fn put_words(answer: &mut Vec<u8>, code: u8, row: &[u8]) -> Result<(), NoWords> {
    let mut parts = Parts::new(row);
    match code {
        1 => {
            let n = parts.eight()?;
            write!(answer, "person {n}")?;
        }
        3 => {
            let n = parts.eight()?;
            write!(answer, "event {n}")?;
        }
        7 | 10 => put_span(answer, &mut parts)?,
        8 => {
            put_time(answer, &mut parts)?;
            write!(answer, " to ")?;
            put_time(answer, &mut parts)?;
        }
        9 => put_time(answer, &mut parts)?,
        11 => put_event_words(answer, &mut parts)?,
        _ => return Err(NoWords),
    }
    if parts.is_empty() {
        Ok(())
    } else {
        Err(NoWords)
    }
}

fn put_time(answer: &mut Vec<u8>, parts: &mut Parts<'_>) -> Result<(), NoWords> {
    let time = Time::at(parts.eight()?).ok_or(NoWords)?;
    write!(answer, "{time}")?;
    Ok(())
}

// When it begins, how long it is, its number and its title.
fn put_span(answer: &mut Vec<u8>, parts: &mut Parts<'_>) -> Result<(), NoWords> {
    let from = parts.eight()?;
    let to = parts.eight()?;
    let number = parts.eight()?;
    let title = parts.text()?;
    let long = Length(to.checked_sub(from).ok_or(NoWords)?);
    let time = Time::at(from).ok_or(NoWords)?;
    write!(answer, "{time} {long} event {number} ")?;
    put_quoted(answer, title)
}
