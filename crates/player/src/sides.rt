// One side of the house: the bytes of its pages, one page after the other.
ghost use Rattle.std.specs.Prelude.{◌≡◌, ◌/◌, length};
ghost use Rattle.pages.specs.Device.{blank, page_at, set_page};
ghost use Rattle.player.specs.Sides.{front, in_pages};

pub use host::machine::PAGE;

// What a stop in the middle of a write brings onto its page.
pub const HALF: usize = 256;

pub fn pages_of(side: &[u8]) -> u64
    ensures { result ≡ length side.now / 512 }
{
    (side.len() / PAGE) as u64
}

// A page's bytes, or none past the end.
pub fn read_page(side: &[u8], k: u64) -> &[u8]
    ensures { result.now ≡ page_at (in_pages side.now) k }
{
    if k >= pages_of(side) {
        return &side[0..0];
    }
    let from = k as usize * PAGE;
    &side[from..from + PAGE]
}

// Puts the first bytes of a page in its place, and the others stay; past the end there is no such place.
pub fn put_front(side: &mut [u8], k: u64, page: &[u8], count: usize)
    ensures { length page.now ≡ 512 → in_pages side.new ≡ set_page (in_pages side.old) k (front count page.now (page_at (in_pages side.old) k)) }
{
    if k >= pages_of(side) || page.len() != PAGE {
        return;
    }
    let count = count.min(PAGE);
    let from = k as usize * PAGE;
    side[from..from + count].copy_from_slice(&page[..count]);
}

// A new side stands in the place of one that was lost.
pub fn lose_side(side: &mut [u8])
    ensures { in_pages side.new ≡ blank (length (in_pages side.old)) }
{
    side.fill(0);
}
