// A row of the list as a line: when it begins, at Greenwich and in each zone; how long it is; its title.
use dates::text::{Length, Time};
use host::machine::Shows;
use host::parts::{NoWords, Parts};
use std::alloc::Global;
use std::io;
use std::io::Write;

// The lines of the board, and the zones whose times they show.
#[derive(Drop)]
pub struct Board {
    pub text: Vec<u8>,
    zones: Vec<i64>,
}

impl Board {
    pub fn new(heap: Global, zones: Vec<i64>) -> Board {
        Board {
            text: Vec::new(heap),
            zones,
        }
    }
}

impl Shows for Board {
    fn show(&mut self, row: &[u8]) -> io::Result<()> {
        put_row(&mut self.text, self.zones.as_slice(), row)
    }
}

// As the station's: one function for both would take two closures for these few lines.
fn put_row(answer: &mut Vec<u8>, zones: &[i64], row: &[u8]) -> io::Result<()> {
    let start = answer.len();
    if put_words(answer, zones, row).is_err() {
        answer.truncate(start);
        write!(answer, "a row that is no event's")?;
    }
    writeln!(answer, "")
}

fn put_time(answer: &mut Vec<u8>, minutes: Option<u64>) -> Result<(), NoWords> {
    let time = minutes.and_then(Time::at).ok_or(NoWords)?;
    write!(answer, "{time} ")?;
    Ok(())
}

// The begin, the end, the event's number, and the title with its length before it.
fn put_words(answer: &mut Vec<u8>, zones: &[i64], row: &[u8]) -> Result<(), NoWords> {
    let mut parts = Parts::new(row);
    let from = parts.eight()?;
    let to = parts.eight()?;
    let _ = parts.eight()?;
    let title = parts.text()?;
    if !parts.is_empty() {
        return Err(NoWords);
    }
    put_time(answer, Some(from))?;
    for east in zones {
        put_time(answer, from.checked_add_signed(*east))?;
    }
    let long = Length(to.checked_sub(from).ok_or(NoWords)?);
    write!(answer, "{long} ")?;
    put_title(answer, title)
}

// What is not printed stands as a dot. It need not be UTF-8, so it is no Display.
fn put_title(answer: &mut Vec<u8>, title: &[u8]) -> Result<(), NoWords> {
    for b in title {
        answer.push(if b.is_ascii_control() { b'.' } else { *b })?;
    }
    Ok(())
}
