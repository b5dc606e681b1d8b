// A house on its files: power comes, and then commands are said.
ghost use Rattle.std.specs.Prelude.{◌≡◌, ◌↔◌, ◌<◌, IsOk, IfErr};
ghost use Rattle.host.specs.declared.house.Undone.TheVariants.{Io};
ghost use Rattle.host.specs.Undone.{Numbered, ended_of, passed_on};
ghost use Rattle.engine.specs.Acts.{refusal_number};

use crate::files::Sides;
use crate::machine::{End, MOST_ACTS, Machine, Shows};
use engine::act::Refusal;
use std::alloc::Global;
use std::error::Error;
use std::{fmt, io};

// Why a command is not done.
#[derive(Debug, Drop)]
pub enum Undone {
    Refused(Refusal),
    Io(io::Error),
}

impl fmt::Display for Undone {
    fn fmt<W: fmt::Write>(&self, f: &mut fmt::Formatter<W>) -> fmt::Result {
        match self {
            Undone::Refused(why) => write!(f, "{why}"),
            Undone::Io(why) => write!(f, "{why}"),
        }
    }
}

impl Error for Undone {}

impl From<io::Error> for Undone {
    ghost from_gives = { λ e u. u ≡ Io e };

    fn from(why: io::Error) -> Undone {
        Undone::Io(why)
    }
}

#[derive(Drop)]
pub struct House {
    sides: Sides,
    machine: Machine,
}

impl House {
    pub fn new(heap: Global, sides: Sides) -> io::Result<House> {
        Ok(House {
            sides,
            machine: Machine::new(heap)?,
        })
    }

    // Power comes. The same is promised here, of a command and of how a run ended, as it is handed on.
    pub fn power<S: Shows>(&mut self, rows: &mut S) -> Result<(), Undone>
        ensures numbered { IfErr result Numbered }
    {
        ended(self.machine.power(MOST_ACTS, &mut self.sides, rows)?)
    }

    // Says a command and hands on its rows.
    pub fn say<S: Shows>(&mut self, command: &[u8], rows: &mut S) -> Result<(), Undone>
        ensures numbered { IfErr result Numbered }
    {
        ended(self.machine.say(command, MOST_ACTS, &mut self.sides, rows)?)
    }
}

fn ended(end: End) -> Result<(), Undone>
    ensures done { IsOk result ↔ (end ≡ End.Done) }
    ensures as_it_is { result ≡ ended_of end }
    ensures numbered { IfErr result Numbered }
{
    match end {
        End::Done => Ok(()),
        End::Refused(why) => Err(Undone::Refused(passed_on(why))),
        End::StillRunning | End::Astray => Err(Undone::Refused(Refusal::Fault)),
    }
}

// What no house may do is a fault.
fn passed_on(why: Refusal) -> Refusal
    ensures same { result ≡ passed_on why }
    ensures numbered { (0 < refusal_number result) × (refusal_number result < 1000) }
{
    if why == Refusal::Misused {
        Refusal::Fault
    } else {
        why
    }
}
