// The header of a device: 32 numbers in the second half of its page 0. A mark, the journal area that counts, how many addresses, and the addresses.
ghost use Rattle.std.specs.Prelude.{◌≡◌, ◌+◌, ◌<◌, ◌≤◌, length, IfSome, ◌==◌};
ghost use Rattle.pages.specs.Bytes.{over};
ghost use Rattle.pages.specs.Store.{header_page, heads_of, slot};
ghost use Rattle.pages.specs.Waking.{chosen, home_of, source_of};

use crate::Page;
use crate::side::Side;
use crate::words::{blank_row, put_each, put_numbers};

// The numbers of a header: an array and no struct, since they are a stretch of the machine's memory, whatever stands there.
pub type Header = [u64; 32];

// Which of the two devices count.
#[derive(Clone, Copy, Debug, PartialEq, Eq)]
pub enum Source {
    Both,
    Only(Side),
    Neither,
}

// The header on a page.
pub(crate) fn read_header(page: &Page) -> Header
    ensures { result ≡ heads_of page.now }
{
    let mut head = [0; 32];
    put_each(&mut head, page[256..].as_chunks().0, u64::from_be_bytes);
    head
}

// The page of a header's numbers, into the front of a row.
pub fn put_header(out: &mut [u8], head: &Header)
    requires { 512 ≤ length out.old }
    ensures { out.new ≡ over (header_page head.now) out.old }
{
    blank_row(out);
    put_numbers(&mut out[256..512], head);
}

// A header of each device, side by side: which counts; `first` becomes the header that both are to have.
pub(crate) fn choose(first: &mut Header, second: &Header) -> Source
    ensures which { result ≡ source_of first.old second.now }
    ensures head { first.new ≡ chosen first.old second.now }
{
    match (first[0] == 1, second[0] == 1) {
        (true, true) => Source::Both,
        (true, false) => Source::Only(Side::First),
        (false, true) => {
            *first = *second;
            Source::Only(Side::Second)
        }
        (false, false) => {
            // The header of a new store.
            *first = [0; 32];
            first[0] = 1;
            Source::Neither
        }
    }
}

// The page of a slot of a journal area, by the header's number: any may stand there, and what is not 1 is the first area.
pub(crate) fn slot(area: u64, i: u64) -> u64
    requires { i < 4294967296 }
    ensures { result ≡ slot (area == 1) i }
{
    if area == 1 { 30 + i } else { 1 + i }
}

// The home page of an address, where there can be such a page.
pub(crate) fn home(head: &Header, i: u64) -> Option<u64>
    ensures is { result ≡ home_of head.now i }
    ensures small { IfSome result (λ k. (k < 1048635) × (i < 29)) }
{
    let address = *head[3..].get(i as usize)?;
    if address < 1048576 {
        Some(59 + address)
    } else {
        None
    }
}
