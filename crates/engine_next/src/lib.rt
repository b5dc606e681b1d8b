// The house as a machine that keeps people: told one thing, it does one act.
#![tactic(auto)]

ghost use Rattle.engine.specs.Acts.{event_in};
ghost use Rattle.engine.specs.Entry.{StepSays, StepNumbered, TellSays, step_fits, tell_fits};
ghost use Rattle.engine.specs.Promise.{Whole};
ghost use Rattle.engine_next.specs.Own.{own};
ghost use Rattle.records.specs.Command.{joins};

mod commit;
mod join;
mod machine;
mod phase;
mod registers;
#[cfg(test)]
mod tests;
mod wake;

pub use dates::{NoSuchDay, date};
use engine::act::{Act, Event, Refusal, numbered};
pub use engine::{MEMORY, Memory, ROW, Row};
use machine::turn;

// These three are engine's with another turn and another promise: this crate takes engine's place when the programs know people.
// One step: told an event, it answers with one act; a page to be written and a row to be shown stand at the front of `out`. A memory of
// another length than MEMORY or a row shorter than ROW is refused as misused, and nothing is changed.
pub fn tell(memory: &mut [u64], event: Event<'_>, out: &mut [u8]) -> Result<Act, Refusal>
    ensures tell_says { TellSays own memory.old (event_in event.entry) out.old (tell_fits own memory.old out.old) result memory.new out.new }
    ensures whole { Whole joins own }
{
    let Some(memory) = memory.as_mut_array::<MEMORY>() else {
        return Err(Refusal::Misused);
    };
    let Some(out) = out.first_chunk_mut::<ROW>() else {
        return Err(Refusal::Misused);
    };
    turn(memory, event, out)
}

// The same step by numbers, as callers in C tell it: a kind and some bytes: 0 power, with how many pages each device has in eight bytes, 1 a command,
// 2 the page that was asked for, 3 go on. Another kind is refused as misused too.
pub fn step(memory: &mut [u64], kind: u64, bytes: &[u8], out: &mut [u8]) -> Result<Act, Refusal>
    ensures step_says { StepSays own memory.old kind bytes.now out.old (step_fits own memory.old kind out.old) result memory.new out.new }
    ensures whole { Whole joins own }
{
    let Some(event) = Event::of(kind, bytes) else {
        return Err(Refusal::Misused);
    };
    tell(memory, event, out)
}

// The same for C, with its answer as one number.
pub fn boomdate_step(memory: &mut [u64], kind: u64, bytes: &[u8], out: &mut [u8]) -> u64
    ensures { StepNumbered own memory.old kind bytes.now out.old result memory.new out.new }
{
    numbered(step(memory, kind, bytes, out))
}
