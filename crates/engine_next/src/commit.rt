// A commit, run in the machine's registers; when it is through, the command shows its number.
ghost use Rattle.std.specs.Prelude.{◌≡◌, ℕ, ◌<◌, ◌≤◌, List, length};
ghost use Rattle.pages.specs.Bytes.{eight, over};
ghost use Rattle.pages.specs.Deeds.{Bounded};
ghost use Rattle.pages.specs.Journal.{opened, opens};
ghost use Rattle.engine.specs.Acts.{Outcome};
ghost use Rattle.engine_next.specs.Memory.{head_in, stored, with_head};
ghost use Rattle.engine_next.specs.Own.{told, committed, committing_next, committing_page};

use crate::phase::Phase;
use crate::registers::{Registers, head, put_head, store};
use crate::wake::perform;
use engine::act::{Act, Refusal};
use engine::{Memory, Row};
use pages::Page;
use pages::bytes::eight_bytes;
use pages::deed::{Deed, Step};
use pages::journal::{Commit, Part};
use pages::words::put_row;

// The number that the command shows.
fn tell(memory: &mut Memory, r: Registers, out: &mut Row) -> Result<Act, Refusal>
    ensures turn { Outcome (told r memory.old) result memory.new out.old out.new }
{
    put_row(out, &eight_bytes(r.people));
    store(memory, r.scanning(Phase::Telling, 0));
    Ok(Act::Shows(8))
}

fn carry(
    memory: &mut Memory,
    r: Registers,
    step: Step<Commit>,
    out: &mut Row,
) -> Result<Act, Refusal>
    requires bounded { Bounded step.deed }
    ensures turn { Outcome (committed step.deed step.state r memory.old) result memory.new out.old out.new }
{
    if let Deed::Ready = step.deed {
        return tell(memory, r, out);
    }
    let act = perform(memory, step.deed, &[], out);
    let state = step.state;
    store(
        memory,
        Registers {
            phase: Phase::Committing(state.part).into(),
            at: state.at,
            ..r
        },
    );
    Ok(act)
}

fn open(memory: &mut Memory, bytes: &Page) -> Step<Commit>
    ensures is { result ≡ opens (head_in memory.old) bytes.now }
    ensures memory { memory.new ≡ with_head (opened (head_in memory.old) bytes.now) memory.old }
    ensures bounded { Bounded result.deed }
{
    let mut numbers = *head(memory);
    let turn = Commit::area(&mut numbers, bytes);
    put_head(memory, &numbers);
    turn
}

pub(crate) fn commit_page(
    memory: &mut Memory,
    r: Registers,
    part: Part,
    bytes: &Page,
    out: &mut Row,
) -> Result<Act, Refusal>
    ensures turn { Outcome (committing_page part r bytes.now memory.old) result memory.new out.old out.new }
{
    let Part::Area = part else {
        return Err(Refusal::Fault);
    };
    let step = open(memory, bytes);
    carry(memory, r, step, out)
}

pub(crate) fn commit_next(
    memory: &mut Memory,
    r: Registers,
    part: Part,
    out: &mut Row,
) -> Result<Act, Refusal>
    ensures turn { Outcome (committing_next part r memory.old) result memory.new out.old out.new }
{
    let commit = Commit { part, at: r.at };
    let Some(step) = commit.next(head(memory)) else {
        return Err(Refusal::Fault);
    };
    carry(memory, r, step, out)
}
