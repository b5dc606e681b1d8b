// A command by value. Its lists stay in the text that it was read from, and are named by their place there.
ghost use Rattle.std.specs.Prelude.{◌≡◌};
ghost use Rattle.records.specs.Reader.{bytes_in};

use dates::zone::Zone;
use recurrence::event::Event;

// So many bytes, or numbers of eight bytes, of a text from a place on.
// A slice of the text would be no plainer: that a command equals the one that its text spells is then no single equation.
#[derive(Clone, Copy, Debug, PartialEq, Eq)]
pub struct Part {
    pub start: usize,
    pub count: usize,
}

impl Part {
    // The bytes that it names; where the text ends before, as many as there are.
    pub fn of(self, text: &[u8]) -> &[u8]
        ensures { result.now ≡ bytes_in text.now self }
    {
        let from = self.start.min(text.len());
        let count = self.count.min(text.len() - from);
        &text[from..from + count]
    }
}

// From one time to a later one, which is not in it.
#[derive(Clone, Copy, Debug, PartialEq, Eq)]
pub struct Stretch {
    pub from: u64,
    pub to: u64,
}

// An event as a command has it: its title is bytes and the days left out are numbers of the text.
#[derive(Clone, Copy, Debug, PartialEq, Eq)]
pub struct Draft {
    pub title: Part,
    pub event: Event,
    pub left_out: Part,
}

// Plain numbers: a command is what its text spells, in that order, and a struct for a person and an event would stand between.
#[derive(Clone, Copy, Debug, PartialEq, Eq)]
pub enum Command {
    // A new person, by name.
    Join(Part),
    // The number of a zone, and what it is from now on.
    SetZone(u8, Zone),
    // A person's new event.
    Put(u64, Draft),
    // A person, an event's number, and what the event is from now on.
    Change(u64, u64, Draft),
    // A person and an event's number.
    DropEvent(u64, u64),
    // A person, an event's number, and a day on which it is left out.
    Skip(u64, u64, u64),
    // What of a person's meets a stretch.
    Listing(u64, Stretch),
    // When some of these people are busy.
    Busy(Part, Stretch),
    // The first time at which all of these people have so many minutes.
    Free(Part, u64, Stretch),
    // A person, and a time from which on the next event is asked for.
    Next(u64, u64),
    // A person and an event's number.
    Shown(u64, u64),
}
