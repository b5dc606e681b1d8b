// Power comes up: the store's recovery, run in the machine's registers.
// A deed is asked to be Bounded, and no type holds that: a step with a ghost field could not be said equal to the one that the definitions hand on.
// Memory, registers, bytes and row stand side by side: each contract is one equation of a step of the machine over the four.
ghost use Rattle.std.specs.Prelude.{◌≡◌, ℕ, Ok, ◌<◌, ◌≤◌, List, [], length};
ghost use Rattle.pages.specs.Bytes.{over};
ghost use Rattle.pages.specs.Deeds.{Bounded, in_content};
ghost use Rattle.pages.specs.Waking.{awaits_header, heard_head, hears};
ghost use Rattle.engine.specs.Acts.{Outcome, out_of, told, told_of};
ghost use Rattle.engine_next.specs.Memory.{head_in, with_head};
ghost use Rattle.engine_next.specs.Own.{act_for, content_of, header_came, recovery_of, waking_next, waking_page, woken};

use crate::phase::Phase;
use crate::registers::{Housed, Registers, batch, head, put_head, store};
use engine::act::{Act, Refusal};
use engine::{Memory, Row};
use pages::Page;
use pages::deed::{Content, Deed, Step};
use pages::heads::put_header;
use pages::waking::{Recovery, Stage};
use pages::words::{blank_row, put_row};

// What is written, into the front of the row. Bytes are a page or none, so a slice, and at most 512 are asked for.
fn fill(memory: &Memory, content: Content, bytes: &[u8], out: &mut Row)
    requires bytes_len_bound { length bytes.now ≤ 512 }
    requires content_bound { in_content content < 29 }
    ensures { out.new ≡ over (content_of content bytes.now memory.now) out.old }
{
    match content {
        Content::Blank => blank_row(out),
        Content::Told => put_row(out, bytes),
        Content::Header => put_header(out, head(memory)),
        Content::Batch(i) => batch(memory, i, out),
    }
}

// A deed of the store as an act, with what it writes in the row.
pub(crate) fn perform(memory: &Memory, deed: Deed, bytes: &[u8], out: &mut Row) -> Act
    requires bytes_len_bound { length bytes.now ≤ 512 }
    requires bounded { Bounded deed }
    ensures act { told (Ok result) ≡ told_of (act_for deed bytes.now memory.now) }
    ensures out { out.new ≡ out_of (act_for deed bytes.now memory.now) out.old }
{
    match deed {
        Deed::Read(side, page) => Act::Read(side, page),
        Deed::Write(side, page, content) => {
            fill(memory, content, bytes, out);
            Act::Write(side, page)
        }
        Deed::Ready => Act::Done,
    }
}

fn carry(
    memory: &mut Memory,
    r: Registers,
    step: Step<Recovery>,
    bytes: &[u8],
    out: &mut Row,
) -> Result<Act, Refusal>
    requires bytes_len_bound { length bytes.now ≤ 512 }
    requires bounded { Bounded step.deed }
    ensures turn { Outcome (woken step r bytes.now memory.old) result memory.new out.old out.new }
{
    let act = perform(memory, step.deed, bytes, out);
    let state = step.state;
    store(
        memory,
        Registers {
            phase: Phase::Waking(state.stage).into(),
            at: state.at,
            side: state.side,
            ..r
        },
    );
    Ok(act)
}

// The recovery that the registers tell of.
fn recovery_of(stage: Stage, r: Registers) -> Recovery
    ensures { result ≡ recovery_of stage r }
{
    Recovery {
        stage,
        pages: r.pages,
        at: r.at,
        side: r.side,
    }
}

fn hear(memory: &mut Memory, recovery: Recovery, bytes: &Page) -> Step<Recovery>
    requires pages_bound { recovery.pages ≤ 1048576 }
    ensures is { result ≡ hears recovery.stage (head_in memory.old) bytes.now recovery }
    ensures memory { memory.new ≡ with_head (heard_head recovery.stage (head_in memory.old) bytes.now) memory.old }
    ensures bounded { Bounded result.deed }
{
    let mut numbers = *head(memory);
    let step = recovery.header(&mut numbers, bytes);
    put_head(memory, &numbers);
    step
}

pub(crate) fn wake_page(
    memory: &mut Memory,
    house: Housed,
    stage: Stage,
    bytes: &Page,
    out: &mut Row,
) -> Result<Act, Refusal>
    ensures turn { Outcome (waking_page stage house.registers bytes.now memory.old) result memory.new out.old out.new }
{
    let r = house.registers;
    let recovery = recovery_of(stage, r);
    if recovery.is_header() {
        let step = hear(memory, recovery, bytes);
        return carry(memory, r, step, bytes, out);
    }
    let Some(step) = recovery.page(head(memory)) else {
        return Err(Refusal::Fault);
    };
    carry(memory, r, step, bytes, out)
}

pub(crate) fn wake_next(
    memory: &mut Memory,
    r: Registers,
    stage: Stage,
    out: &mut Row,
) -> Result<Act, Refusal>
    ensures turn { Outcome (waking_next stage r memory.old) result memory.new out.old out.new }
{
    let Some(step) = recovery_of(stage, r).next(head(memory)) else {
        return Err(Refusal::Fault);
    };
    carry(memory, r, step, &[], out)
}
