// Power comes up: both devices are brought to be alike. Every step may be the last before a stop, and then all begins anew.
ghost use Rattle.std.specs.Prelude.{◌≡◌, ◌≤◌, cond, IfSome, None, Some};
ghost use Rattle.pages.specs.Deeds.{Bounded, side_at};
ghost use Rattle.pages.specs.Waking.{awaits_header, begun, copied_from, fetched, going, hears, heard_head, page_of, next_of, in_range, replayed_from, wiped_from};

use crate::Page;
use crate::deed::{Content, Deed, Step};
use crate::heads::{Header, Source, choose, home, read_header, slot};
use crate::side::Side;

// What is awaited.
#[derive(Clone, Copy, Debug, PartialEq, Eq)]
pub enum Stage {
    // The header of the first device, then of the second.
    Header(Side),
    // The header on the second device, which was one commit behind or alike.
    Mending,
    // Blank pages on the first, then its header: a new store.
    Wiping,
    Marking,
    // A page of the device that counts, then the same on the other; at last its header.
    Asking,
    Copying,
    Heading,
    // The journal's pages to their homes, on each device from its own journal.
    Slot(Side),
    Home(Side),
}

#[derive(Clone, Copy, Debug, PartialEq, Eq)]
pub struct Recovery {
    pub stage: Stage,
    // Any number, as begin takes what it is given: the three that need fewer ask for it, since a bound here would narrow begin.
    pub pages: u64,
    // The page or the slot at hand.
    pub at: u64,
    // The device that counts. Beside the stage and not in it: the machine keeps each in a number of its own, whatever the stage.
    // Any number too: where it is no side, `page` and `next` have no next step, and a header is heard all the same.
    pub side: u64,
}

impl Recovery {
    // Of so many pages on each device.
    pub fn begin(pages: u64) -> Step<Recovery>
        ensures { result ≡ begun pages }
    {
        Step {
            state: Recovery {
                stage: Stage::Header(Side::First),
                pages,
                at: 0,
                side: 0,
            },
            deed: Deed::Read(Side::First, 0),
        }
    }

    fn going(self, stage: Stage, at: u64, side: Side, deed: Deed) -> Step<Recovery>
        ensures { result ≡ going stage at side deed self }
    {
        Step {
            state: Recovery {
                stage,
                pages: self.pages,
                at,
                side: side.into(),
            },
            deed,
        }
    }

    // Blank pages from one on.
    fn wipe(self, k: u64) -> Step<Recovery>
        requires { self.pages ≤ 1048576 }
        ensures is { result ≡ wiped_from k self }
        ensures bounded { Bounded result.deed }
    {
        if self.pages > k {
            return self.going(
                Stage::Wiping,
                k,
                Side::First,
                Deed::Write(Side::First, k, Content::Blank),
            );
        }
        self.going(
            Stage::Marking,
            0,
            Side::First,
            Deed::Write(Side::First, 0, Content::Header),
        )
    }

    // Pages copied from a device, from one on.
    fn copy(self, side: Side, k: u64) -> Step<Recovery>
        requires { self.pages ≤ 1048576 }
        ensures is { result ≡ copied_from side k self }
        ensures bounded { Bounded result.deed }
    {
        if k < self.pages {
            return self.going(Stage::Asking, k, side, Deed::Read(side, k));
        }
        self.going(
            Stage::Heading,
            0,
            side,
            Deed::Write(side.other(), 0, Content::Header),
        )
    }

    // A page of a device's journal, to be put into its home.
    fn fetch(self, side: Side, head: &Header, i: u64) -> Step<Recovery>
        requires { i ≤ 1048577 }
        ensures is { result ≡ fetched side head.now i self }
        ensures bounded { Bounded result.deed }
    {
        let page = slot(head[1], i);
        self.going(Stage::Slot(side), i, Side::First, Deed::Read(side, page))
    }

    // Journal pages to their homes, from one on.
    fn replay(self, head: &Header, i: u64) -> Step<Recovery>
        requires { i ≤ 1048577 }
        ensures is { result ≡ replayed_from head.now i self }
        ensures bounded { Bounded result.deed }
    {
        if i < head[2] {
            return self.fetch(Side::First, head, i);
        }
        self.going(Stage::Header(Side::First), 0, Side::First, Deed::Ready)
    }

    // The device that counts, where no number is out of its range.
    fn counting(self) -> Option<Side>
        ensures { result ≡ cond (in_range self) (Some (side_at self.side)) None }
    {
        if self.pages > 1048576 || self.at > 1048576 {
            return None;
        }
        self.side.try_into().ok()
    }

    // Is it a header that is awaited?
    pub fn is_header(self) -> bool
        ensures { result ≡ awaits_header self.stage }
    {
        matches!(self.stage, Stage::Header(_))
    }

    // A header came. `head` becomes its numbers, or those that both devices are to have.
    pub fn header(self, head: &mut Header, bytes: &Page) -> Step<Recovery>
        requires { self.pages ≤ 1048576 }
        ensures is { result ≡ hears self.stage head.old bytes.now self }
        ensures head { head.new ≡ heard_head self.stage head.old bytes.now }
        ensures bounded { Bounded result.deed }
    {
        let Stage::Header(Side::Second) = self.stage else {
            *head = read_header(bytes);
            return self.going(
                Stage::Header(Side::Second),
                0,
                Side::First,
                Deed::Read(Side::Second, 0),
            );
        };
        match choose(head, &read_header(bytes)) {
            Source::Both => self.going(
                Stage::Mending,
                0,
                Side::First,
                Deed::Write(Side::Second, 0, Content::Header),
            ),
            Source::Only(side) => self.copy(side, 1),
            Source::Neither => self.wipe(1),
        }
    }

    // Any other page came. Where `head` is no header or a number is out of its range, there is no next step.
    pub fn page(self, head: &[u64]) -> Option<Step<Recovery>>
        ensures is { result ≡ page_of self head.now }
        ensures bounded { IfSome result (λ v. Bounded v.deed) }
    {
        let head: &Header = head.try_into().ok()?;
        let side = self.counting()?;
        // A match: each arm is a line of the definition for what is awaited.
        match self.stage {
            Stage::Asking => Some(self.going(
                Stage::Copying,
                self.at,
                side,
                Deed::Write(side.other(), self.at, Content::Told),
            )),
            Stage::Slot(side) => {
                let page = home(head, self.at)?;
                Some(self.going(
                    Stage::Home(side),
                    self.at,
                    Side::First,
                    Deed::Write(side, page, Content::Told),
                ))
            }
            _ => None,
        }
    }

    // The last act is done. Where `head` is no header or a number is out of its range, there is no next step.
    pub fn next(self, head: &[u64]) -> Option<Step<Recovery>>
        ensures is { result ≡ next_of self head.now }
        ensures bounded { IfSome result (λ v. Bounded v.deed) }
    {
        let head: &Header = head.try_into().ok()?;
        let side = self.counting()?;
        // A match: each arm is a line of the definition for what is awaited.
        match self.stage {
            Stage::Wiping => Some(self.wipe(self.at + 1)),
            Stage::Marking => Some(self.copy(Side::First, 1)),
            Stage::Copying => Some(self.copy(side, self.at + 1)),
            Stage::Home(Side::First) => Some(self.fetch(Side::Second, head, self.at)),
            Stage::Home(Side::Second) => Some(self.replay(head, self.at + 1)),
            Stage::Mending | Stage::Heading => Some(self.replay(head, 0)),
            _ => None,
        }
    }
}
