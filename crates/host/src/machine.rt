// The machine beside its devices: what it is told, and the acts that it does one after the other.
ghost use Rattle.std.specs.Prelude.{◌≡◌, Ok, replicate, vec_len};
ghost use Rattle.host.specs.Ends.{end_number};
ghost use Rattle.host.specs.declared.machine.Unwritten.TheVariants.{Io};

use engine::act::{Act, Event, Refusal};
use engine::{MEMORY, ROW, tell};
use pages::Page;
use pages::side::Side;
use std::alloc::{AllocError, Global};
use std::error::Error;
use std::ops::ControlFlow;
use std::{fmt, io};

pub const PAGE: usize = 512;

// A machine that ends does so long before.
pub const MOST_ACTS: u64 = 1 << 40;

// The pages of a house's two sides.
pub trait Devices {
    // How many each side has.
    fn pages(&self) -> u64;

    // Whatever is done next, a write that was under way has landed then.
    fn settle(&mut self) {}

    // Reads a page; one beyond the end is empty.
    fn read(&mut self, side: Side, page: u64, into: &mut Vec<u8>) -> io::Result<()>;

    fn write(&mut self, side: Side, page: u64, bytes: &Page) -> Result<(), Unwritten>;
}

// Why a page is not written.
#[derive(Debug, Drop)]
pub enum Unwritten {
    NoSuchPage,
    Io(io::Error),
}

impl fmt::Display for Unwritten {
    fn fmt<W: fmt::Write>(&self, f: &mut fmt::Formatter<W>) -> fmt::Result {
        match self {
            Unwritten::NoSuchPage => f.write_str("there is no such page"),
            Unwritten::Io(why) => write!(f, "{why}"),
        }
    }
}

impl Error for Unwritten {}

impl From<io::Error> for Unwritten {
    ghost from_gives = { λ e u. u ≡ Io e };

    fn from(why: io::Error) -> Unwritten {
        Unwritten::Io(why)
    }
}

// Where the rows go that a command shows.
pub trait Shows {
    fn show(&mut self, row: &[u8]) -> io::Result<()>;
}

// How what the machine was told ended.
#[derive(Clone, Copy, Debug, PartialEq, Eq)]
pub enum End {
    Done,
    Refused(Refusal),
    // It may do no more acts.
    StillRunning,
    // It asked for what no device has.
    Astray,
}

impl From<End> for u64 {
    ghost from_gives = { λ e n. n ≡ end_number e };

    fn from(end: End) -> u64 {
        match end {
            End::Done => 0,
            End::Refused(Refusal::Misused) => 1001,
            End::Refused(refusal) => u64::from(refusal),
            End::StillRunning => 1000,
            End::Astray => 1001,
        }
    }
}

// What the machine is told after an act. No Event: that would lend the page, which the next read fills.
#[derive(Clone, Copy)]
enum Next {
    // The page that was read.
    Page,
    GoOn,
}

#[derive(Drop)]
pub struct Machine {
    // Made on the heap: arrays so long would pass over the stack.
    memory: Vec<u64>,
    // The page that was read last, and the row that the machine is lent.
    page: Vec<u8>,
    out: Vec<u8>,
    ghost whole: { vec_len memory ≡ 262144 },
    ghost wide: { vec_len out ≡ 131072 },
}

impl Machine {
    pub fn new(heap: Global) -> Result<Machine, AllocError> {
        Ok(Machine {
            memory: vec![in heap; 0; MEMORY]?,
            page: Vec::with_capacity(heap, PAGE)?,
            out: vec![in heap; 0; ROW]?,
        })
    }

    // Power comes: memory is all 0 then, as it was made, or as `stop` left it, which is called in between. The same is promised here, of a command
    // and of a run, as it is handed on.
    pub fn power<D: Devices, S: Shows>(
        &mut self,
        most: u64,
        devices: &mut D,
        rows: &mut S,
    ) -> io::Result<End>
        ensures none { most ≡ 0 → result ≡ Ok End.StillRunning }
    {
        self.run(Event::On(devices.pages()), most, devices, rows)
    }

    // Power stops, and memory is lost.
    pub fn stop(&mut self)
        ensures { self.new.memory.items ≡ replicate 262144 0 }
    {
        self.memory.as_mut_slice().fill(0);
    }

    // A command is said.
    pub fn say<D: Devices, S: Shows>(
        &mut self,
        command: &[u8],
        most: u64,
        devices: &mut D,
        rows: &mut S,
    ) -> io::Result<End>
        ensures none { most ≡ 0 → result ≡ Ok End.StillRunning }
    {
        self.run(Event::Said(command), most, devices, rows)
    }

    // Tells an event, and does what the machine then wants, so many acts at most.
    fn run<D: Devices, S: Shows>(
        &mut self,
        event: Event<'_>,
        most: u64,
        devices: &mut D,
        rows: &mut S,
    ) -> io::Result<End>
        ensures none { most ≡ 0 → result ≡ Ok End.StillRunning }
    {
        let mut next = None;
        // Counted: how many acts it may do is what is meant.
        for _ in 0..most {
            let answer = match next {
                None => tell(self.memory.as_mut_slice(), event, self.out.as_mut_slice()),
                Some(next) => self.go_on(next),
            };
            devices.settle();
            match self.carry_out(answer, devices, rows)? {
                ControlFlow::Break(end) => return Ok(end),
                ControlFlow::Continue(then) => next = Some(then),
            }
        }
        Ok(End::StillRunning)
    }

    fn go_on(&mut self, next: Next) -> Result<Act, Refusal> {
        let memory = self.memory.as_mut_slice();
        let out = self.out.as_mut_slice();
        match next {
            Next::Page => tell(memory, Event::Page(self.page.as_slice()), out),
            Next::GoOn => tell(memory, Event::Next, out),
        }
    }

    fn carry_out<D: Devices, S: Shows>(
        &mut self,
        answer: Result<Act, Refusal>,
        devices: &mut D,
        rows: &mut S,
    ) -> io::Result<ControlFlow<End, Next>> {
        match answer {
            Ok(Act::Read(side, page)) => {
                self.page.clear();
                devices.read(side, page, &mut self.page)?;
                Ok(ControlFlow::Continue(Next::Page))
            }
            Ok(Act::Write(side, page)) => self.write(side, page, devices),
            Ok(Act::Shows(size)) => self.show(size, rows),
            Ok(Act::Done) => Ok(ControlFlow::Break(End::Done)),
            Err(refusal) => Ok(ControlFlow::Break(End::Refused(refusal))),
        }
    }

    // The page that is to be written.
    fn front(&self) -> &Page {
        self.out.as_slice().first_chunk::<PAGE>().unwrap()
    }

    fn write<D: Devices>(
        &self,
        side: Side,
        page: u64,
        devices: &mut D,
    ) -> io::Result<ControlFlow<End, Next>> {
        match devices.write(side, page, self.front()) {
            Ok(()) => Ok(ControlFlow::Continue(Next::GoOn)),
            Err(Unwritten::NoSuchPage) => Ok(ControlFlow::Break(End::Astray)),
            Err(Unwritten::Io(why)) => Err(why),
        }
    }

    fn show<S: Shows>(&self, size: usize, rows: &mut S) -> io::Result<ControlFlow<End, Next>> {
        let Some(row) = self.out.get(..size) else {
            return Ok(ControlFlow::Break(End::Astray));
        };
        rows.show(row)?;
        Ok(ControlFlow::Continue(Next::GoOn))
    }
}
