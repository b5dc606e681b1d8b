// A line is said, and answered.
use crate::bad::Bad;
use crate::help::{TOPICS, Topic, find};
use crate::line::{Line, read_line};
use crate::rows::Answer;
use crate::words::Words;
use engine::act::Refusal;
use host::house::{House, Undone};
use std::alloc::Global;
use std::io;
use std::io::Write;
use std::ops::ControlFlow;

// Answers a line; the last one breaks off.
pub fn answer_line(
    heap: Global,
    house: &mut House,
    line: &[u8],
    answer: &mut Answer,
) -> io::Result<ControlFlow<()>> {
    let mut words = Words::new(line);
    match read_line(heap, &mut words) {
        Ok(Line::Nothing) => {}
        Ok(Line::Quit) => return Ok(ControlFlow::Break(())),
        Ok(Line::Help(word)) => put_help(&mut answer.text, topic_of(word))?,
        Ok(Line::Say(command)) => {
            answer.code = command.first().copied().unwrap_or(0);
            let end = house.say(command.as_slice(), answer);
            put_end(&mut answer.text, end)?;
        }
        Err(why) => put_bad(&mut answer.text, line, why)?,
    }
    Ok(ControlFlow::Continue(()))
}

// Why a line is not understood, and where to read on.
fn put_bad(answer: &mut Vec<u8>, line: &[u8], why: Bad) -> io::Result<()> {
    let mut words = Words::new(line);
    match topic_of(words.next()) {
        Some(topic) => {
            let name = topic.name;
            writeln!(answer, "bad line: {why}; see help {name}")
        }
        None => writeln!(answer, "bad line: {why}; see help"),
    }
}

fn topic_of(word: Option<&[u8]>) -> Option<&'static Topic> {
    find(std::str::from_utf8(word?).ok()?)
}

// Help on a topic, or on all.
fn put_help(answer: &mut Vec<u8>, topic: Option<&Topic>) -> io::Result<()> {
    if let Some(topic) = topic {
        return writeln!(answer, "{topic}");
    }
    for topic in &TOPICS {
        writeln!(answer, "{topic}")?;
    }
    Ok(())
}

// How a command ended.
pub fn put_end(answer: &mut Vec<u8>, end: Result<(), Undone>) -> io::Result<()> {
    match end {
        Ok(()) => writeln!(answer, "done"),
        Err(Undone::Refused(why)) => put_refusal(answer, why),
        Err(Undone::Io(why)) => Err(why),
    }
}

fn put_refusal(answer: &mut Vec<u8>, why: Refusal) -> io::Result<()> {
    let number = u64::from(why);
    writeln!(answer, "refused {number}: {why}")
}
