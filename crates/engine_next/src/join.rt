// A person joins: the root is read, then all names, then the page that the new person is put on; both pages are committed.
// What registers hold is asked for where it is used and no type holds it: they come from a memory that is not trusted.
ghost use Rattle.std.specs.Prelude.{◌≡◌, ℕ, suc, ◌+◌, ◌-◌, ◌*◌, ◌/◌, ◌%◌, ◌<◌, ◌≤◌, List, [], ◌∷◌, length};
ghost use Rattle.pages.specs.Bytes.{placed};
ghost use Rattle.pages.specs.Fields.{at};
ghost use Rattle.records.specs.Does.{names_on, new_person, new_root, put_block};
ghost use Rattle.engine.specs.Acts.{Quiet};
ghost use Rattle.engine_next.specs.Memory.{head_in, name_in, root_in, with_batch, with_head};
ghost use Rattle.engine_next.specs.Own.{counted, deciding, join_head, join_said, joining_page, looking_from, names_came, people_came, root_came, smaller};

use crate::phase::{Join, Phase};
use crate::registers::{
    Housed, Registers, head, name, put_batch, put_head, put_name, put_root, root, store,
};
use engine::Memory;
use engine::act::{Act, Refusal};
use pages::Page;
use pages::heads::Header;
use pages::journal::Part;
use pages::side::Side;
use records::people::{Root, has_name, put_person};

// The command is there: the root is asked for.
pub(crate) fn join_said(memory: &mut Memory, pages: u64, name: &[u8]) -> Result<Act, Refusal>
    ensures turn { Quiet (join_said name.now pages memory.old) result memory.new }
{
    if name.len() > 64 {
        return Err(Refusal::Fault);
    }
    put_name(memory, name);
    store(
        memory,
        Registers {
            phase: Phase::Joining(Join::Root).into(),
            pages,
            at: 0,
            side: 0,
            long: name.len() as u64,
            people: 0,
            weight: 0,
        },
    );
    Ok(Act::Read(Side::First, 59))
}

// No one has the name: is there room for one more?
fn decide(memory: &mut Memory, house: Housed) -> Result<Act, Refusal>
    ensures turn { Quiet (deciding house.registers memory.old) result memory.new }
{
    let r = house.registers;
    if r.people >= 256 {
        return Err(Refusal::TooMany);
    }
    if r.weight > 128 * r.pages - 256 {
        return Err(Refusal::NoRoom);
    }
    store(memory, r.scanning(Phase::Joining(Join::People), 0));
    Ok(Act::Read(Side::First, 60 + r.people / 4))
}

// The names from a page of people on.
fn look(memory: &mut Memory, house: Housed, i: u64) -> Result<Act, Refusal>
    requires i_bound { i ≤ 64 }
    ensures turn { Quiet (looking_from i house.registers memory.old) result memory.new }
{
    let r = house.registers;
    if 4 * i < r.people {
        store(memory, r.scanning(Phase::Joining(Join::Names), i));
        return Ok(Act::Read(Side::First, 60 + i));
    }
    decide(memory, house)
}

fn root_came(memory: &mut Memory, house: Housed, bytes: &Page) -> Result<Act, Refusal>
    ensures turn { Quiet (root_came house.registers bytes.now memory.old) result memory.new }
{
    let Root { people, weight, .. } = Root::of(bytes);
    if people > 256 {
        return Err(Refusal::Fault);
    }
    put_root(memory, bytes);
    look(
        memory,
        Housed {
            registers: Registers {
                people,
                weight,
                ..house.registers
            },
        },
        0,
    )
}

// How many people stand on the page of people at hand.
fn people_here(r: Registers) -> u64
    requires { r.at < 64 }
    ensures is { result ≡ smaller 4 (r.people - 4 * r.at) }
    ensures few { result ≤ 4 }
{
    r.people.saturating_sub(4 * r.at).min(4)
}

// Does one of those on this page have the name at hand?
fn is_taken(memory: &Memory, r: Registers, bytes: &Page) -> bool
    requires long_bound { r.long ≤ 64 }
    requires at_bound { r.at < 64 }
    ensures { result ≡ names_on bytes.now (smaller 4 (r.people - 4 * r.at)) (name_in r.long memory.now) }
{
    let mut row = [0; 64];
    let long = r.long as usize;
    name(memory, long, &mut row);
    has_name(bytes, people_here(r), &row[0..long])
}

fn names_came(memory: &mut Memory, house: Housed, bytes: &Page) -> Result<Act, Refusal>
    ensures turn { Quiet (names_came house.registers bytes.now memory.old) result memory.new }
{
    let r = house.registers;
    if r.at >= 64 || r.people > 256 || r.long > 64 {
        return Err(Refusal::Fault);
    }
    if is_taken(memory, r, bytes) {
        return Err(Refusal::NameTaken);
    }
    look(memory, house, r.at + 1)
}

// The addresses of the batch: the page of the new person, and the root.
fn put_addresses(head: &mut Header, people: u64)
    requires people_bound { people < 256 }
    ensures { head.new ≡ join_head people head.old }
{
    head[2] = 2;
    head[3] = people / 4 + 1;
    head[4] = 0;
}

fn put_join_head(memory: &mut Memory, people: u64)
    requires people_bound { people < 256 }
    ensures { memory.new ≡ with_head (join_head people (head_in memory.old)) memory.old }
{
    let mut numbers = *head(memory);
    put_addresses(&mut numbers, people);
    put_head(memory, &numbers);
}

// The page with the new person on it.
fn put_new_person(memory: &mut Memory, r: Registers, bytes: &Page)
    requires long_bound { r.long ≤ 64 }
    ensures { memory.new ≡ with_batch 0 (put_block (r.people % 4) (new_person (name_in r.long memory.old)) bytes.now) memory.old }
{
    let mut row = [0; 64];
    let long = r.long as usize;
    name(memory, long, &mut row);
    let mut page = *bytes;
    put_person(&mut page, r.people % 4, &row[0..long]);
    put_batch(memory, 0, &page);
}

// The root with one person more.
fn put_new_root(memory: &mut Memory, r: Registers)
    requires people_bound { r.people < 256 }
    requires weight_bound { r.weight ≤ 134217728 }
    ensures { memory.new ≡ with_batch 1 (new_root (root_in memory.old) (r.people + 1) (r.weight + 256) (at 16 8 (root_in memory.old))) memory.old }
{
    let mut page = [0; 512];
    root(memory, &mut page);
    let next = Root {
        people: r.people + 1,
        weight: r.weight + 256,
        ..Root::of(&page)
    };
    next.put(&mut page);
    put_batch(memory, 1, &page);
}

fn people_came(memory: &mut Memory, house: Housed, bytes: &Page) -> Result<Act, Refusal>
    ensures turn { Quiet (people_came house.registers bytes.now memory.old) result memory.new }
{
    let r = house.registers;
    if r.people >= 256 || r.weight > 128 * r.pages - 256 || r.long > 64 {
        return Err(Refusal::Fault);
    }
    put_new_person(memory, r, bytes);
    put_new_root(memory, r);
    put_join_head(memory, r.people);
    store(memory, r.scanning(Phase::Committing(Part::Area), 0));
    Ok(Act::Read(Side::First, 0))
}

pub(crate) fn join_page(
    memory: &mut Memory,
    house: Housed,
    join: Join,
    bytes: &Page,
) -> Result<Act, Refusal>
    ensures turn { Quiet (joining_page join house.registers bytes.now memory.old) result memory.new }
{
    match join {
        Join::Root => root_came(memory, house, bytes),
        Join::Names => names_came(memory, house, bytes),
        Join::People => people_came(memory, house, bytes),
    }
}
