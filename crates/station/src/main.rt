// A house on two files of pages, spoken to in words.
#![tactic(auto)]

mod bad;
mod command;
mod desk;
mod event;
mod help;
mod line;
mod numbers;
mod rows;
mod shown;
mod spell;
mod words;
mod zones;

use desk::{answer_line, put_end};
use host::files::{Found, Sides, Unopened, open};
use host::house::House;
use rows::Answer;
use std::io::{BufRead, BufReader, Write};
use std::{env, io};

const USAGE: &str =
    "station FIRST SECOND [PAGES]: a house on two files of pages. Where neither exists they are made, with PAGES pages of 512 bytes (256 to 1048576; 4096 where nothing is said). Type help to see what can be said.";

// A word on what was found.
fn print_found(rt: &HostRuntime, found: Found, first: &str, second: &str) -> io::Result<()> {
    match found {
        Found::Both => Ok(()),
        Found::New => println!(rt; "{first} and {second} are new"),
        Found::FirstMade => println!(rt;
            "{first} was missing: a blank one stands in its place, as for a device that was lost"
        ),
        Found::SecondMade => println!(rt;
            "{second} was missing: a blank one stands in its place, as for a device that was lost"
        ),
    }
}

// Power comes, and then line after line is answered.
fn serve(rt: &HostRuntime, sides: Sides) -> io::Result<()> {
    let heap = rt.alloc();
    let mut input = BufReader::new(heap, rt.stdin())?;
    let mut output = rt.stdout();
    let pages = sides.pages();
    let mut house = House::new(heap, sides)?;
    let mut answer = Answer::new(heap);
    let end = house.power(&mut answer);
    write!(answer.text, "power, {pages} pages: ")?;
    put_end(&mut answer.text, end)?;
    output.write_all(answer.text.as_slice())?;
    let mut line = Vec::new(heap);
    // Counted, since a loop has to be seen to end; no input has so many lines.
    for _ in 0..u64::MAX {
        line.clear();
        if input.read_until(b'\n', &mut line)? == 0 {
            break;
        }
        answer.text.clear();
        let flow = answer_line(heap, &mut house, line.as_slice(), &mut answer)?;
        output.write_all(answer.text.as_slice())?;
        if flow.is_break() {
            break;
        }
    }
    Ok(())
}

fn run(rt: &HostRuntime) -> io::Result<()> {
    let mut args = env::args(rt)?;
    let _ = args.next();
    let (Some(first), Some(second)) = (args.next(), args.next()) else {
        return println!(rt; "{USAGE}");
    };
    let pages = match args.next() {
        None => 4096,
        Some(word) => match word.parse::<u64>() {
            Ok(pages) => pages,
            Err(_) => return println!(rt; "{word} is no number of pages; {USAGE}"),
        },
    };
    match open(rt, first.as_str(), second.as_str(), pages) {
        Ok((sides, found)) => {
            print_found(rt, found, first.as_str(), second.as_str())?;
            serve(rt, sides)
        }
        Err(Unopened::Io(why)) => Err(why),
        Err(why) => println!(rt; "{why}"),
    }
}

fn main(rt: HostRuntime) -> io::Result<()> {
    run(&rt)
}
