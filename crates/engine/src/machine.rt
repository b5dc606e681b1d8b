// One turn of the machine, by what it is told. Nothing in its memory is trusted: what is not expected is a fault, and changes nothing.
ghost use Rattle.std.specs.Prelude.{◌≡◌};
ghost use Rattle.engine.specs.Acts.{Quiet, event_in};
ghost use Rattle.engine.specs.Own.{pages_in, with_pages, a_house, step_on, step_said, step_of};

use crate::Memory;
use crate::act::{Act, Event, Refusal};

// May a device have so many pages?
pub fn is_house(pages: u64) -> bool
    ensures { result ≡ a_house pages }
{
    256 <= pages && pages <= 1048576
}

// How many pages each device has, by the memory.
fn pages_in(memory: &Memory) -> u64
    ensures { result ≡ pages_in memory.now }
{
    memory[0]
}

fn set_pages(memory: &mut Memory, pages: u64)
    ensures { memory.new ≡ with_pages pages memory.old }
{
    memory[0] = pages;
}

// Power is there: the devices are counted on.
fn power(memory: &mut Memory, pages: u64) -> Result<Act, Refusal>
    ensures { Quiet (step_on pages memory.old) result memory.new }
{
    if !is_house(pages) {
        return Err(Refusal::Fault);
    }
    set_pages(memory, pages);
    Ok(Act::Done)
}

// A command: no command is known yet.
fn command(memory: &Memory, bytes: &[u8]) -> Result<Act, Refusal>
    ensures { Quiet (step_said bytes.now memory.now) result memory.now }
{
    if !is_house(pages_in(memory)) {
        return Err(Refusal::Fault);
    }
    let _ = records::read::read(bytes).ok_or(Refusal::NoCommand)?;
    Err(Refusal::NotKnown)
}

pub(crate) fn turn(memory: &mut Memory, event: Event<'_>) -> Result<Act, Refusal>
    ensures { Quiet (step_of memory.old (event_in event.entry)) result memory.new }
{
    match event {
        Event::On(pages) => power(memory, pages),
        Event::Said(bytes) => command(memory, bytes),
        Event::Page(_) | Event::Next => Err(Refusal::Fault),
    }
}
