// The house beside its devices, and what happens to it.
ghost use Rattle.std.specs.Prelude.{◌≡◌, false, ◌&&◌, [], ◌∷◌, nat_lt};
ghost use Rattle.pages.specs.Lists.{pick};
ghost use Rattle.pages.specs.Run.{proper_so};
ghost use Rattle.player.specs.Items.{item_of};

use crate::devices::Devices;
use crate::script::{Item, Left};
use host::machine::{End, MOST_ACTS, Machine, Shows};
use pages::hex;
use pages::side::Side;
use std::alloc::{AllocError, Global};
use std::io::Write;
use std::{fmt, io};

// What is answered to a line.
#[derive(Drop)]
pub struct Answer {
    pub text: Vec<u8>,
}

impl Shows for Answer {
    fn show(&mut self, row: &[u8]) -> io::Result<()> {
        write!(self.text, "row ")?;
        hex::write(&mut self.text, row)?;
        writeln!(self.text, "")
    }
}

// How a run went: how it ended, and how many pages were read and written.
#[derive(Clone, Copy)]
struct Ran {
    end: End,
    used: u64,
}

impl fmt::Display for Ran {
    fn fmt<W: fmt::Write>(&self, f: &mut fmt::Formatter<W>) -> fmt::Result {
        let end = u64::from(self.end);
        let used = self.used;
        write!(f, "end {end} used {used}")
    }
}

#[derive(Drop)]
pub struct House {
    devices: Devices,
    machine: Machine,
    // Two facts, as the rule has them that says what may follow.
    up: bool,
    // No side was lost since power last came up.
    both: bool,
}

impl House {
    pub fn new(heap: Global, pages: usize) -> Result<House, AllocError> {
        Ok(House {
            devices: Devices::new(heap, pages)?,
            machine: Machine::new(heap)?,
            up: false,
            both: true,
        })
    }

    // Power comes where there is none, and a command is said where there is; a side is lost without power, and not again before it has come up.
    fn allows(&self, item: &Item) -> bool
        ensures { result ≡ proper_so self.now.up self.now.both (item_of item.now ∷ []) }
    {
        match item {
            Item::Power => !self.up,
            Item::PowerStops { .. } => !self.up,
            Item::Whole(_) => self.up,
            Item::Stops { .. } => self.up,
            Item::Loses(side) => may_lose(self.up, self.both, *side),
        }
    }

    // Plays an item, and writes its answer.
    pub fn play(&mut self, item: &Item, answer: &mut Answer) -> io::Result<()> {
        if !self.allows(item) {
            return writeln!(answer.text, "improper");
        }
        let ran = match item {
            Item::Power => {
                let ran = self.power(MOST_ACTS, answer)?;
                self.up = true;
                self.both = true;
                ran
            }
            Item::PowerStops { acts, left } => {
                let ran = self.power(*acts, answer)?;
                self.stop(*left);
                ran
            }
            Item::Whole(command) => self.say(command.as_slice(), MOST_ACTS, answer)?,
            Item::Stops {
                command,
                acts,
                left,
            } => {
                let ran = self.say(command.as_slice(), *acts, answer)?;
                self.stop(*left);
                self.up = false;
                ran
            }
            Item::Loses(side) => {
                // No number of no side comes here.
                self.devices
                    .lose(Side::try_from(*side).unwrap_or(Side::Second));
                self.both = false;
                return writeln!(answer.text, "lost");
            }
        };
        writeln!(answer.text, "{ran}")
    }

    fn power(&mut self, most: u64, answer: &mut Answer) -> io::Result<Ran> {
        self.devices.begin();
        let end = self.machine.power(most, &mut self.devices, answer)?;
        Ok(self.ran(end))
    }

    fn say(&mut self, command: &[u8], most: u64, answer: &mut Answer) -> io::Result<Ran> {
        self.devices.begin();
        let end = self.machine.say(command, most, &mut self.devices, answer)?;
        Ok(self.ran(end))
    }

    // What a stop leaves of the write under way, and of memory nothing.
    fn stop(&mut self, left: Left) {
        self.devices.stop(left);
        self.machine.stop();
    }

    fn ran(&self, end: End) -> Ran {
        Ran {
            end,
            used: self.devices.used(),
        }
    }
}

// A script may name any side, also one that there is not.
fn may_lose(up: bool, both: bool, side: u64) -> bool
    ensures { result ≡ pick up false (both && nat_lt side 2) }
{
    !up && both && side < 2
}
