// Plays a script line by line, on the house that its last `pages` made.
use crate::run::{Answer, House};
use crate::script::{Bad, Line, read_line};
use std::alloc::Global;
use std::io;
use std::io::Write;

#[derive(Drop)]
pub struct Player {
    heap: Global,
    house: Option<House>,
    lines: u64,
    // What the last line was answered.
    answer: Answer,
}

impl Player {
    pub fn new(heap: Global) -> Player {
        Player {
            heap,
            house: None,
            lines: 0,
            answer: Answer {
                text: Vec::new(heap),
            },
        }
    }

    // The answer to the next line.
    pub fn answer(&mut self, line: &[u8]) -> io::Result<&[u8]> {
        self.lines = self.lines.saturating_add(1);
        self.answer.text.clear();
        if let Err(why) = self.play(line) {
            let n = self.lines;
            writeln!(self.answer.text, "bad line {n}: {why}")?;
        }
        Ok(self.answer.text.as_slice())
    }

    fn play(&mut self, line: &[u8]) -> Result<(), Bad> {
        match read_line(self.heap, line)? {
            Line::Nothing => {}
            Line::Pages(pages) => {
                // The old house goes first, to make room for the new one.
                self.house = None;
                self.house = Some(House::new(self.heap, pages)?);
            }
            Line::Item(item) => match &mut self.house {
                Some(house) => house.play(&item, &mut self.answer)?,
                None => return Err(Bad::PagesFirst),
            },
        }
        Ok(())
    }
}
