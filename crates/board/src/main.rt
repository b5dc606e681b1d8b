// Prints what is listed of a person, one line each.
#![tactic(auto)]

mod row;
mod say;

use dates::read::Misread;
use engine::act::Refusal;
use host::files::{Sides, Unopened, open_both};
use host::house::{House, Undone};
use row::Board;
use say::{list_command, read_time};
use std::alloc::{AllocError, AllocFailed, Global};
use std::error::Error;
use std::io::Write;
use std::{env, fmt, fs, io};

const USAGE: &str =
    "board FIRST SECOND PERSON FROM TO [ZONE...]: what is listed of a person of the house on two files, one line each: when it begins at Greenwich, its length and its title. FROM and TO are written as 2026-03-23 or 2026-03-23T07:00. Each ZONE is a number of minutes east of Greenwich, -720 to 840, and adds a column with the begin there.";

// What is asked for on the command line.
#[derive(Drop)]
struct Asked {
    person: u64,
    from: u64,
    to: u64,
    zones: Vec<i64>,
}

// Why it is not understood what is asked for.
#[derive(Debug, Drop)]
enum Bad {
    Person(String),
    Time(String, Misread),
    Zone,
    NoMemory,
}

impl fmt::Display for Bad {
    fn fmt<W: fmt::Write>(&self, f: &mut fmt::Formatter<W>) -> fmt::Result {
        match self {
            Bad::Person(word) => write!(f, "{word} is no person's number"),
            Bad::Time(word, why) => write!(f, "{word}: {why}"),
            Bad::Zone => write!(f, "a zone is a number of minutes east, -720 to 840"),
            Bad::NoMemory => write!(f, "there is no memory for it"),
        }
    }
}

impl Error for Bad {}

impl<T: Drop> From<AllocFailed<T>> for Bad {
    fn from(_e: AllocFailed<T>) -> Bad {
        Bad::NoMemory
    }
}

fn read_asked(
    heap: Global,
    person: String,
    from: String,
    to: String,
    words: env::Args,
) -> Result<Asked, Bad> {
    let zones = read_zones(heap, words)?;
    Ok(Asked {
        person: number(person)?,
        from: time(from)?,
        to: time(to)?,
        zones,
    })
}

fn number(word: String) -> Result<u64, Bad> {
    match word.parse::<u64>() {
        Ok(number) => Ok(number),
        Err(_) => Err(Bad::Person(word)),
    }
}

fn time(word: String) -> Result<u64, Bad> {
    match read_time(word.as_bytes()) {
        Ok(time) => Ok(time),
        Err(why) => Err(Bad::Time(word, why)),
    }
}

// The zones on the command line.
fn read_zones(heap: Global, words: env::Args) -> Result<Vec<i64>, Bad> {
    let mut zones = Vec::new(heap);
    for word in words {
        match word.parse::<i64>() {
            Ok(east) if east >= -720 && east <= 840 => zones.push(east)?,
            _ => return Err(Bad::Zone),
        }
    }
    Ok(zones)
}

// Both files have to be there: a house is made by the station.
fn all_there(rt: &HostRuntime, first: &str, second: &str) -> io::Result<bool> {
    for path in [first, second] {
        if !fs::exists(rt, path)? {
            println!(rt; "{path} is missing: there is no house to list; the station makes one")?;
            return Ok(false);
        }
    }
    Ok(true)
}

fn print_board(rt: &HostRuntime, sides: Sides, asked: Asked) -> io::Result<()> {
    let heap = rt.alloc();
    let mut house = House::new(heap, sides)?;
    let command = list_command(heap, asked.person, asked.from, asked.to)?;
    let mut board = Board::new(heap, asked.zones);
    if let Some(why) = refusal(house.power(&mut board))? {
        let number = u64::from(why);
        return println!(rt; "the house does not come up: refused {number}");
    }
    let end = refusal(house.say(command.as_slice(), &mut board))?;
    rt.stdout().write_all(board.text.as_slice())?;
    match end {
        None => Ok(()),
        Some(Refusal::NoCommand) => println!(rt;
            "refused: a person is a number up to 255, and TO is after FROM, by 400 days at most"
        ),
        Some(Refusal::NotKnown) => println!(rt; "list is not known yet"),
        Some(Refusal::NoSuch) => println!(rt; "refused: there is no such person"),
        Some(why) => {
            let number = u64::from(why);
            println!(rt; "refused {number}")
        }
    }
}

// Why it is refused, if it is; a file that fails ends the program.
fn refusal(end: Result<(), Undone>) -> io::Result<Option<Refusal>> {
    match end {
        Ok(()) => Ok(None),
        Err(Undone::Refused(why)) => Ok(Some(why)),
        Err(Undone::Io(why)) => Err(why),
    }
}

fn run(rt: &HostRuntime) -> io::Result<()> {
    let mut args = env::args(rt)?;
    let _ = args.next();
    let (Some(first), Some(second)) = (args.next(), args.next()) else {
        return println!(rt; "{USAGE}");
    };
    let (Some(person), Some(from), Some(to)) = (args.next(), args.next(), args.next()) else {
        return println!(rt; "{USAGE}");
    };
    let asked = match read_asked(rt.alloc(), person, from, to, args) {
        Ok(asked) => asked,
        Err(Bad::NoMemory) => return Err(io::Error::from(AllocError)),
        Err(why) => return println!(rt; "{why}"),
    };
    if !all_there(rt, first.as_str(), second.as_str())? {
        return Ok(());
    }
    match open_both(rt, first.as_str(), second.as_str()) {
        Ok(sides) => print_board(rt, sides, asked),
        Err(Unopened::Io(why)) => Err(why),
        Err(_) => println!(rt;
            "the files are not the two sides of a house: 256 to 1048576 pages of 512 bytes each, and equally many"
        ),
    }
}

fn main(rt: HostRuntime) -> io::Result<()> {
    run(&rt)
}
