// The two files of a house: pages of 512 bytes, one after the other.
ghost use Rattle.std.specs.Prelude.{◌≡◌, ◌*◌, ◌≤◌, ◌↔◌, true, ltb, IfSome, IfOk, IsTrue, if◌then◌else◌, vec_len, OnOk, IsErrOf};
ghost use Rattle.host.specs.Sides.{Housed};

use crate::machine::{Devices, PAGE, Unwritten};
use pages::Page;
use pages::side::Side;
use std::alloc::{AllocError, Global};
use std::error::Error;
use std::fs::{File, OpenFile, OpenOptions};
use std::io::{Read, Seek, SeekFrom, Write};
use std::{fmt, fs, io};

pub const FEWEST: u64 = 256;

pub const MOST: u64 = 1_048_576;

// Whether a house may have so many pages on each side. As engine's, said as a fact and by no Bool: Sides has it as a ghost field.
pub fn is_house(pages: u64) -> bool
    ensures { IsTrue result ↔ Housed pages }
{
    pages >= FEWEST && pages <= MOST
}

// Two files of so many pages each.
#[derive(Drop)]
pub struct Sides {
    first: File,
    second: File,
    pages: u64,
    ghost housed: { Housed pages },
}

// How the files were found.
#[derive(Clone, Copy, Debug, PartialEq, Eq)]
pub enum Found {
    Both,
    // Both were made, blank.
    New,
    // One was missing, and a blank one stands in its place.
    FirstMade,
    SecondMade,
}

// Why there is no house; nothing is touched then.
#[derive(Debug, Drop)]
pub enum Unopened {
    // So many bytes cannot be the length of a side.
    NoSide { path: String, bytes: u64 },
    Unequal { first: u64, second: u64 },
    // No house has so many pages.
    NoHouse(u64),
    Io(io::Error),
}

impl fmt::Display for Unopened {
    fn fmt<W: fmt::Write>(&self, f: &mut fmt::Formatter<W>) -> fmt::Result {
        match self {
            Unopened::NoSide { path, bytes } => write!(
                f,
                "{path} has {bytes} bytes: a side has 256 to 1048576 pages of 512 bytes; nothing is touched"
            ),
            Unopened::Unequal { first, second } => write!(
                f,
                "the files have {first} and {second} bytes, and should be equally long; nothing is touched"
            ),
            Unopened::NoHouse(pages) => write!(
                f,
                "a house has 256 to 1048576 pages, and not {pages}"
            ),
            Unopened::Io(why) => write!(f, "{why}"),
        }
    }
}

impl Error for Unopened {}

impl From<io::Error> for Unopened {
    fn from(why: io::Error) -> Unopened {
        Unopened::Io(why)
    }
}

impl From<AllocError> for Unopened {
    fn from(why: AllocError) -> Unopened {
        Unopened::Io(io::Error::from(why))
    }
}

// The files' sides, made where they are missing, and how they were found.
pub fn open(
    rt: &HostRuntime,
    first: &str,
    second: &str,
    pages: u64,
) -> Result<(Sides, Found), Unopened> {
    match (fs::exists(rt, first)?, fs::exists(rt, second)?) {
        (true, true) => Ok((open_both(rt, first, second)?, Found::Both)),
        (false, false) => {
            if !is_house(pages) {
                return Err(Unopened::NoHouse(pages));
            }
            let sides = Sides {
                first: make(rt, first, pages)?,
                second: make(rt, second, pages)?,
                pages,
            };
            Ok((sides, Found::New))
        }
        (true, false) => {
            let (first, second, pages) = beside(rt, first, second)?;
            let sides = Sides {
                first,
                second,
                pages,
            };
            Ok((sides, Found::SecondMade))
        }
        (false, true) => {
            let (second, first, pages) = beside(rt, second, first)?;
            let sides = Sides {
                first,
                second,
                pages,
            };
            Ok((sides, Found::FirstMade))
        }
    }
}

// The file that is there, a blank one of its length in the place of the other, and its pages.
fn beside(rt: &HostRuntime, there: &str, missing: &str) -> Result<(File, File, u64), Unopened>
    ensures { IfOk result (λ t. Housed t.2) }
{
    let old = open_one(rt, there)?;
    let pages = measured(rt.alloc(), old.metadata()?.len(), there)?;
    let new = make(rt, missing, pages)?;
    Ok((old, new, pages))
}

// Both files, which have to be there.
pub fn open_both(rt: &HostRuntime, first: &str, second: &str) -> Result<Sides, Unopened> {
    let one = open_one(rt, first)?;
    let two = open_one(rt, second)?;
    let bytes = one.metadata()?.len();
    let others = two.metadata()?.len();
    let pages = measured(rt.alloc(), bytes, first)?;
    measured(rt.alloc(), others, second)?;
    if bytes != others {
        return Err(Unopened::Unequal {
            first: bytes,
            second: others,
        });
    }
    Ok(Sides {
        first: one,
        second: two,
        pages,
    })
}

// How many pages a file of so many bytes has, if it is a side.
fn measured(heap: Global, bytes: u64, path: &str) -> Result<u64, Unopened>
    ensures { IfOk result Housed }
{
    match pages_in(bytes) {
        Some(pages) => Ok(pages),
        None => Err(Unopened::NoSide {
            path: String::from_str(heap, path)?,
            bytes,
        }),
    }
}

// How many pages a side of so many bytes has.
fn pages_in(bytes: u64) -> Option<u64>
    ensures { IfSome result (λ n. (256 ≤ n) × (n ≤ 1048576) × (512 * n ≡ bytes)) }
{
    let pages = bytes / PAGE as u64;
    if bytes % PAGE as u64 != 0 || !is_house(pages) {
        return None;
    }
    Some(pages)
}

fn open_one(rt: &HostRuntime, path: &str) -> io::Result<File> {
    OpenOptions::new().read(true).write(true).open(rt, path)
}

fn make(rt: &HostRuntime, path: &str, pages: u64) -> io::Result<File> {
    let file = File::create_new(rt, path)?;
    file.set_len(pages.saturating_mul(PAGE as u64))?;
    file.sync_all()?;
    Ok(file)
}

impl Sides {
    pub fn pages(&self) -> u64
        ensures { result ≡ self.now.pages }
    {
        self.pages
    }

    // Reads a page into `page`; one beyond the end is empty.
    pub fn read(&mut self, side: Side, k: u64, page: &mut Vec<u8>) -> io::Result<()>
        ensures { OnOk result (vec_len page.new ≡ (if ltb k self.old.pages then 512 else 0)) }
    {
        page.clear();
        if k >= self.pages {
            return Ok(());
        }
        page.resize(PAGE, 0)?;
        read_at(self.file(side), k, page.as_mut_slice())
    }

    // Writes a page, and sees that it is on the disk; or says that there is no such page.
    pub fn write(&mut self, side: Side, k: u64, page: &[u8]) -> Result<(), Unwritten>
        ensures there { IfOk result (λ _. ltb k self.old.pages ≡ true) }
        ensures no_page { IsErrOf result Unwritten.NoSuchPage ↔ (self.old.pages ≤ k) }
    {
        if k >= self.pages {
            return Err(Unwritten::NoSuchPage);
        }
        write_at(self.file(side), k, page)?;
        Ok(())
    }

    fn file(&mut self, side: Side) -> &mut File {
        match side {
            Side::First => &mut self.first,
            Side::Second => &mut self.second,
        }
    }
}

// The trait asks for no promise; Sides' own functions make them.
impl Devices for Sides {
    fn pages(&self) -> u64 {
        Sides::pages(self)
    }

    fn read(&mut self, side: Side, page: u64, into: &mut Vec<u8>) -> io::Result<()> {
        Sides::read(self, side, page, into)
    }

    fn write(&mut self, side: Side, page: u64, bytes: &Page) -> Result<(), Unwritten> {
        Sides::write(self, side, page, bytes)
    }
}

fn read_at(file: &mut File, k: u64, page: &mut [u8]) -> io::Result<()> {
    file.seek(SeekFrom::Start(k.saturating_mul(PAGE as u64)))?;
    file.read_exact(page)
}

fn write_at(file: &mut File, k: u64, page: &[u8]) -> io::Result<()> {
    file.seek(SeekFrom::Start(k.saturating_mul(PAGE as u64)))?;
    file.write_all(page)?;
    file.sync_data()
}
