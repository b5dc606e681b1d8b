// A commit: up to 29 pages change all at once, or not at all. The journal on both devices, the header on one and then on the other, then the home pages.
ghost use Rattle.std.specs.Prelude.{◌≡◌, ◌<◌, not, ◌∷◌, drop, IfSome};
ghost use Rattle.pages.specs.Lists.{bit};
ghost use Rattle.pages.specs.Store.{area, head_number};
ghost use Rattle.pages.specs.Deeds.{Bounded};
ghost use Rattle.pages.specs.Journal.{begun, going, headed, homed, homes_from, next_of, opened, opens, slots_from, slotted};

use crate::Page;
use crate::bytes::number;
use crate::deed::{Content, Deed, Step};
use crate::heads::{Header, home, slot};
use crate::side::Side;

// What is awaited. Each is done on the first device and then on the second.
#[derive(Clone, Copy, Debug, PartialEq, Eq)]
pub enum Part {
    // The header of the first device, for the area that counts.
    Area,
    // A page in its slot of the other area.
    Slot(Side),
    // The header: from here on the new pages count.
    Head(Side),
    // A page in its home.
    Home(Side),
}

#[derive(Clone, Copy, Debug, PartialEq, Eq)]
pub struct Commit {
    pub part: Part,
    // The page of the batch at hand.
    pub at: u64,
}

fn going(part: Part, at: u64, deed: Deed) -> Step<Commit>
    ensures { result ≡ going part at deed }
{
    Step {
        state: Commit { part, at },
        deed,
    }
}

fn area_number(bytes: &Page) -> u64
    ensures { result ≡ head_number bytes.now 1 }
{
    number(&bytes[264..])
}

// The area that does not count, by a header.
fn other_area(bytes: &Page) -> u64
    ensures { result ≡ bit (not (area bytes.now)) }
{
    if area_number(bytes) == 1 { 0 } else { 1 }
}

// The header's numbers marked, with the area that is to count.
fn open(head: &mut Header, area: u64)
    ensures { head.new ≡ 1 ∷ area ∷ drop 2 head.old }
{
    head[0] = 1;
    head[1] = area;
}

// A page of the batch into its slot. That i is below 29 is asked for: it was compared where it comes from.
fn slotted(side: Side, head: &Header, i: u64) -> Step<Commit>
    requires { i < 29 }
    ensures is { result ≡ slotted side head.now i }
    ensures bounded { Bounded result.deed }
{
    let page = slot(head[1], i);
    going(
        Part::Slot(side),
        i,
        Deed::Write(side, page, Content::Batch(i)),
    )
}

fn headed(side: Side) -> Step<Commit>
    ensures is { result ≡ headed side }
    ensures bounded { Bounded result.deed }
{
    going(Part::Head(side), 0, Deed::Write(side, 0, Content::Header))
}

// A page of the batch into its home.
fn homed(side: Side, head: &Header, i: u64) -> Option<Step<Commit>>
    ensures is { result ≡ homed side head.now i }
    ensures bounded { IfSome result (λ t. Bounded t.deed) }
{
    let page = home(head, i)?;
    Some(going(
        Part::Home(side),
        i,
        Deed::Write(side, page, Content::Batch(i)),
    ))
}

// The pages of the batch into their slots, from one on.
fn slots(head: &Header, i: u64) -> Step<Commit>
    ensures is { result ≡ slots_from head.now i }
    ensures bounded { Bounded result.deed }
{
    if i < head[2] && i < 29 {
        return slotted(Side::First, head, i);
    }
    headed(Side::First)
}

// The pages of the batch into their homes, from one on.
fn homes(head: &Header, i: u64) -> Option<Step<Commit>>
    ensures is { result ≡ homes_from head.now i }
    ensures bounded { IfSome result (λ t. Bounded t.deed) }
{
    if i < head[2] {
        return homed(Side::First, head, i);
    }
    Some(going(Part::Area, 0, Deed::Ready))
}

impl Commit {
    // The header's numbers from the third on have the count and the addresses.
    pub fn begin() -> Step<Commit>
        ensures { result ≡ begun }
    {
        going(Part::Area, 0, Deed::Read(Side::First, 0))
    }

    // The first device's header came: the other area is to count.
    pub fn area(head: &mut Header, bytes: &Page) -> Step<Commit>
        ensures is { result ≡ opens head.old bytes.now }
        ensures head { head.new ≡ opened head.old bytes.now }
        ensures bounded { Bounded result.deed }
    {
        open(head, other_area(bytes));
        slots(head, 0)
    }

    // The last act is done. Where `head` is no header or a number is out of its range, there is no next step.
    pub fn next(self, head: &[u64]) -> Option<Step<Commit>>
        ensures is { result ≡ next_of self head.now }
        ensures bounded { IfSome result (λ t. Bounded t.deed) }
    {
        let head: &Header = head.try_into().ok()?;
        if self.at >= 29 {
            return None;
        }
        let i = self.at;
        // A match: each arm is a line of the definition for what is awaited.
        match self.part {
            Part::Slot(Side::First) => Some(slotted(Side::Second, head, i)),
            Part::Slot(Side::Second) => Some(slots(head, i + 1)),
            Part::Head(Side::First) => Some(headed(Side::Second)),
            Part::Head(Side::Second) => homes(head, 0),
            Part::Home(Side::First) => homed(Side::Second, head, i),
            Part::Home(Side::Second) => homes(head, i + 1),
            Part::Area => None,
        }
    }
}
