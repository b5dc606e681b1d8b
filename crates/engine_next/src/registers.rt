// The machine's registers and the areas of its memory.
ghost use Rattle.std.specs.Prelude.{◌≡◌, true, false, MatchOption, ◌+◌, ◌*◌, ◌<◌, ◌≤◌, length};
ghost use Rattle.engine.specs.Own.{a_house};
ghost use Rattle.engine_next.specs.Own.{scanning};
ghost use Rattle.engine_next.specs.Phases.{phase_number};
ghost use Rattle.engine_next.specs.Memory.{batch_in, head_in, loaded, name_in, root_in, stored, with_batch, with_head, with_name, with_root};
ghost use Rattle.pages.specs.Bytes.{over};

use crate::phase::Phase;
use engine::{Memory, Row, is_house};
use pages::Page;
use pages::heads::Header;
use pages::words::{put_bytes, put_low_bytes};

// As memory holds them, which is not trusted: any number may stand in each, the phase and the side too.
#[derive(Clone, Copy, Debug, PartialEq, Eq)]
pub struct Registers {
    pub phase: u64,
    // Of each device; between commands only this one matters.
    pub pages: u64,
    // The page, slot or page of people at hand.
    pub at: u64,
    // The device that is copied.
    pub side: u64,
    // How long the name at hand is.
    pub long: u64,
    // How many people there are, and what all that is kept weighs.
    pub people: u64,
    pub weight: u64,
}

// Registers of devices that have as many pages as a house may have.
#[derive(Clone, Copy)]
pub struct Housed {
    pub registers: Registers,
    ghost fewest: { 256 ≤ registers.pages },
    ghost most: { registers.pages ≤ 1048576 },
}

impl Registers {
    // In another phase, from one page or slot on.
    pub(crate) fn scanning(self, phase: Phase, at: u64) -> Registers
        ensures { result ≡ scanning (phase_number phase) at self }
    {
        Registers {
            phase: phase.into(),
            at,
            side: 0,
            ..self
        }
    }

    pub(crate) fn housed(self) -> Option<Housed>
        ensures { MatchOption result (a_house self.pages ≡ false) (λ house. (a_house self.pages ≡ true) × (house.registers ≡ self)) }
    {
        if is_house(self.pages) {
            Some(Housed { registers: self })
        } else {
            None
        }
    }
}

pub(crate) fn load(memory: &Memory) -> Registers
    ensures { result ≡ loaded memory.now }
{
    Registers {
        phase: memory[0],
        pages: memory[1],
        at: memory[2],
        side: memory[3],
        long: memory[4],
        people: memory[5],
        weight: memory[6],
    }
}

pub(crate) fn store(memory: &mut Memory, r: Registers)
    ensures { memory.new ≡ stored r memory.old }
{
    memory[0] = r.phase;
    memory[1] = r.pages;
    memory[2] = r.at;
    memory[3] = r.side;
    memory[4] = r.long;
    memory[5] = r.people;
    memory[6] = r.weight;
}

// The numbers of the header at hand.
pub(crate) fn head(memory: &Memory) -> &Header
    ensures { result.now ≡ head_in memory.now }
{
    memory[3904..].first_chunk().unwrap()
}

// Copied out, changed and put back: tried in place, and what is written through an array that is lent out of memory isn't known of it.
pub(crate) fn put_head(memory: &mut Memory, head: &Header)
    ensures { memory.new ≡ with_head head.now memory.old }
{
    memory[3904..3936].copy_from_slice(head);
}

// A name is a part of lent bytes, so its length is asked for.
pub(crate) fn put_name(memory: &mut Memory, name: &[u8])
    requires name_len_bound { length name.now ≤ 64 }
    ensures { memory.new ≡ with_name name.now memory.old }
{
    put_bytes(&mut memory[64..128], name);
}

// The name at hand, into the front of a row.
pub(crate) fn name(memory: &Memory, long: usize, row: &mut [u8; 64])
    requires long_bound { long ≤ 64 }
    ensures { row.new ≡ over (name_in long memory.now) row.old }
{
    put_low_bytes(row, &memory[64..64 + long]);
}

pub(crate) fn put_root(memory: &mut Memory, page: &Page)
    ensures { memory.new ≡ with_root page.now memory.old }
{
    put_bytes(&mut memory[3392..3904], page);
}

pub(crate) fn root(memory: &Memory, page: &mut Page)
    ensures { page.new ≡ over (root_in memory.now) page.old }
{
    put_low_bytes(page, &memory[3392..3904]);
}

// A page of the batch, of which there are 29: i was compared where it comes from.
pub(crate) fn put_batch(memory: &mut Memory, i: u64, page: &Page)
    requires i_bound { i < 29 }
    ensures { memory.new ≡ with_batch i page.now memory.old }
{
    let from = 4416 + 512 * i as usize;
    put_bytes(&mut memory[from..from + 512], page);
}

pub(crate) fn batch(memory: &Memory, i: u64, row: &mut Row)
    requires i_bound { i < 29 }
    ensures { row.new ≡ over (batch_in i memory.now) row.old }
{
    let from = 4416 + 512 * i as usize;
    put_low_bytes(row, &memory[from..from + 512]);
}
