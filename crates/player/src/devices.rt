// Two devices side by side in memory, and the write that is under way.
ghost use Rattle.std.specs.Prelude.{◌≡◌, length};
ghost use Rattle.pages.specs.Device.{landed, lost, page_at, side_of, stopped};
ghost use Rattle.pages.specs.Deeds.{side_number};
ghost use Rattle.player.specs.Held.{come, device_of, left_number};

use crate::script::Left;
use crate::sides::{HALF, PAGE, lose_side, pages_of, put_front, read_page};
use host::machine::Unwritten;
use pages::Page;
use pages::side::Side;
use std::alloc::{AllocError, Global};
use std::io;

// Where a write goes, and its page.
#[derive(Clone, Copy)]
struct Writing {
    side: Side,
    at: u64,
    page: Page,
}

#[derive(Drop)]
pub struct Devices {
    first: Vec<u8>,
    second: Vec<u8>,
    // It lands when the next act is done.
    under_way: Option<Writing>,
    // How many pages were read and written in this run.
    used: u64,
}

impl Devices {
    // Two blank devices.
    pub fn new(heap: Global, pages: usize) -> Result<Devices, AllocError> {
        let Some(bytes) = pages.checked_mul(PAGE) else {
            return Err(AllocError);
        };
        Ok(Devices {
            first: vec![in heap; 0; bytes]?,
            second: vec![in heap; 0; bytes]?,
            under_way: None,
            used: 0,
        })
    }

    // A run begins, and its pages are counted anew.
    pub fn begin(&mut self)
        ensures none { self.new.used ≡ 0 }
        ensures same { device_of self.new ≡ device_of self.old }
    {
        self.used = 0;
    }

    // How many pages were read and written in this run.
    pub fn used(&self) -> u64
        ensures { result ≡ self.now.used }
    {
        self.used
    }

    // By side in each of these three: their promises are of both sides together, which one that is lent out would hide.
    pub fn read_page(&self, side: Side, page: u64) -> &[u8]
        ensures { result.now ≡ page_at (side_of (device_of self.now) (side_number side)) page }
    {
        match side {
            Side::First => read_page(self.first.as_slice(), page),
            Side::Second => read_page(self.second.as_slice(), page),
        }
    }

    // The first bytes of a write come onto its page. Its length is said for land and stop, which don't read it off the type.
    fn put(&mut self, write: Writing, count: usize)
        ensures come { device_of self.new ≡ come count write (device_of self.old) }
        ensures long { length write.page ≡ 512 }
    {
        match write.side {
            Side::First => put_front(self.first.as_mut_slice(), write.at, &write.page, count),
            Side::Second => put_front(self.second.as_mut_slice(), write.at, &write.page, count),
        }
        self.under_way = None;
    }

    // The write under way lands.
    pub fn land(&mut self)
        ensures { device_of self.new ≡ landed (device_of self.old) }
    {
        if let Some(write) = self.under_way {
            self.put(write, PAGE);
        }
    }

    // Power stops: of the write under way so much comes onto its page.
    pub fn stop(&mut self, left: Left)
        ensures { device_of self.new ≡ stopped (device_of self.old) (left_number left) }
    {
        let Some(write) = self.under_way else {
            return;
        };
        match left {
            Left::Nothing => self.under_way = None,
            Left::All => self.put(write, PAGE),
            Left::Half => self.put(write, HALF),
        }
    }

    // One side is lost, and a blank one stands there.
    pub fn lose(&mut self, side: Side)
        ensures { device_of self.new ≡ lost (device_of self.old) (side_number side) }
    {
        self.under_way = None;
        match side {
            Side::First => lose_side(self.first.as_mut_slice()),
            Side::Second => lose_side(self.second.as_mut_slice()),
        }
    }
}

impl host::machine::Devices for Devices {
    fn pages(&self) -> u64 {
        pages_of(self.first.as_slice())
    }

    fn settle(&mut self) {
        self.land();
    }

    fn read(&mut self, side: Side, page: u64, into: &mut Vec<u8>) -> io::Result<()> {
        into.extend_from_slice(self.read_page(side, page))?;
        self.used = self.used.saturating_add(1);
        Ok(())
    }

    // Begins a write.
    fn write(&mut self, side: Side, page: u64, bytes: &Page) -> Result<(), Unwritten> {
        if page >= pages_of(self.first.as_slice()) {
            return Err(Unwritten::NoSuchPage);
        }
        self.used = self.used.saturating_add(1);
        self.under_way = Some(Writing {
            side,
            at: page,
            page: *bytes,
        });
        Ok(())
    }
}
