// One turn of the machine, by what it is told. Nothing in its memory is trusted: what is not expected is a fault, and changes nothing.
ghost use Rattle.std.specs.Prelude.{◌≡◌, ◌≤◌, true, false, MatchOption, length};
ghost use Rattle.pages.specs.Device.{a_page};
ghost use Rattle.engine.specs.Acts.{Outcome, Quiet, event_in};
ghost use Rattle.engine_next.specs.Memory.{loaded};
ghost use Rattle.engine_next.specs.Own.{next_with, on_with, page_with, said_with, step_of};

use crate::commit::{commit_next, commit_page};
use crate::join::{join_page, join_said};
use crate::phase::Phase;
use crate::registers::{Registers, load, store};
use crate::wake::{wake_next, wake_page};
use engine::act::{Act, Event, Refusal};
use engine::{Memory, Row, is_house};
use pages::Page;
use pages::side::Side;
use pages::waking::Stage;
use records::command::Command;
use records::read::read;

// The page that bytes are, if they are one.
fn page_of(bytes: &[u8]) -> Option<&Page>
    ensures { MatchOption result (a_page bytes.now ≡ false) (λ page. (a_page bytes.now ≡ true) × (page.now ≡ bytes.now)) }
{
    let page = bytes.as_array()?;
    // An array that is read is known to hold bytes.
    let _ = page[0];
    Some(page)
}

// Power is there: the store is brought up.
fn power(memory: &mut Memory, pages: u64) -> Result<Act, Refusal>
    ensures turn { Quiet (on_with pages (loaded memory.old) memory.old) result memory.new }
{
    let r = load(memory);
    if !is_house(pages) {
        return Err(Refusal::Fault);
    }
    store(
        memory,
        Registers {
            phase: Phase::Waking(Stage::Header(Side::First)).into(),
            pages,
            at: 0,
            side: 0,
            ..r
        },
    );
    Ok(Act::Read(Side::First, 0))
}

// A command: it begins, or is refused.
fn command(memory: &mut Memory, bytes: &[u8]) -> Result<Act, Refusal>
    ensures turn { Quiet (said_with (loaded memory.old) bytes.now memory.old) result memory.new }
{
    let Some(house) = load(memory).housed() else {
        return Err(Refusal::Fault);
    };
    let Some(command) = read(bytes) else {
        return Err(Refusal::NoCommand);
    };
    let Command::Join(name) = command else {
        return Err(Refusal::NotKnown);
    };
    join_said(memory, house.registers.pages, name.of(bytes))
}

// A page came.
fn page_came(memory: &mut Memory, bytes: &[u8], out: &mut Row) -> Result<Act, Refusal>
    ensures turn { Outcome (page_with (loaded memory.old) bytes.now memory.old) result memory.new out.old out.new }
{
    let Some(house) = load(memory).housed() else {
        return Err(Refusal::Fault);
    };
    let Some(page) = page_of(bytes) else {
        return Err(Refusal::Fault);
    };
    // A match: each arm is a line of the definition for what is awaited.
    match Phase::from(house.registers.phase) {
        Phase::Waking(stage) => wake_page(memory, house, stage, page, out),
        Phase::Committing(part) => commit_page(memory, house.registers, part, page, out),
        Phase::Joining(join) => join_page(memory, house, join, page),
        Phase::Telling | Phase::Idle => Err(Refusal::Fault),
    }
}

// The last act is done.
fn go_on(memory: &mut Memory, out: &mut Row) -> Result<Act, Refusal>
    ensures turn { Outcome (next_with (loaded memory.old) memory.old) result memory.new out.old out.new }
{
    let Some(house) = load(memory).housed() else {
        return Err(Refusal::Fault);
    };
    // A match: each arm is a line of the definition for what is awaited.
    match Phase::from(house.registers.phase) {
        Phase::Waking(stage) => wake_next(memory, house.registers, stage, out),
        Phase::Committing(part) => commit_next(memory, house.registers, part, out),
        Phase::Telling => {
            store(memory, house.registers.scanning(Phase::Idle, 0));
            Ok(Act::Done)
        }
        Phase::Joining(_) | Phase::Idle => Err(Refusal::Fault),
    }
}

pub(crate) fn turn(memory: &mut Memory, event: Event<'_>, out: &mut Row) -> Result<Act, Refusal>
    ensures long { length out.new ≡ 131072 }
    ensures turn { Outcome (step_of memory.old (event_in event.entry)) result memory.new out.old out.new }
{
    match event {
        Event::On(pages) => power(memory, pages),
        Event::Said(bytes) => command(memory, bytes),
        Event::Page(bytes) => page_came(memory, bytes, out),
        Event::Next => go_on(memory, out),
    }
}
