// An event on its pages: a first page with the numbers, the addresses of the further pages and the front of the body, and up to six further
// pages with the rest of it. The body is the title and three bytes for each day left out.
ghost use Rattle.std.specs.Prelude.{◌≡◌, ◌+◌, ◌*◌, ◌<◌, ◌≤◌, true, [], ◌∷◌, ◌++◌, length, take, drop, nat_le};
ghost use Rattle.pages.specs.Bytes.{placed};
ghost use Rattle.pages.specs.Fields.{at, number, fields, pad};
ghost use Rattle.pages.specs.Lists.{added_up, every};
ghost use Rattle.recurrence.specs.Value.{event_with};
ghost use Rattle.records.specs.Layout.{first_fields, fours, further};
ghost use Rattle.records.specs.Does.{read_threes, relink};
ghost use Rattle.records.specs.Sheets.{event_value, fields_of, first_value, laid, repeat_value, threes, week_value};

use crate::field::kind_of;
use crate::place::{Page, number_at, put_all, put_bytes, put_number};
use crate::write::Entry;
use recurrence::event::{Event, Repeat, Weekdays};

// The bytes of an event's title and days left out, as many as its pages hold.
pub type Body = [u8; 3450];

// What a first page says.
#[derive(Clone, Copy, Debug, PartialEq, Eq)]
pub struct First {
    // The address of the next event of the same person; 0 where there is none, as the page has it.
    pub link: u64,
    pub number: u64,
    // How long the title is, and how many days are left out.
    pub title: u64,
    pub days: u64,
    pub event: Event,
}

impl First {
    pub fn of(page: &Page) -> First
        ensures { result ≡ first_value page.now }
    {
        First {
            link: number_at(page, 1, 4),
            number: number_at(page, 5, 8),
            title: number_at(page, 13, 1),
            days: number_at(page, 14, 2),
            event: event_in(page),
        }
    }

    // The fields of the first page that says so, from the page's mark on: how many bytes each takes, and its number.
    fn fields(self) -> [(usize, u64); 21]
        ensures { result ≡ fields_of self }
    {
        let repeat = self.event.repeat;
        let on = repeat.weekdays;
        [
            (1, 1),
            (4, self.link),
            (8, self.number),
            (1, self.title),
            (2, self.days),
            (1, u64::from(self.event.zone)),
            (3, self.event.first),
            (2, self.event.minute),
            (2, self.event.long),
            (1, u64::from(self.event.busy)),
            (1, u64::from(u8::from(repeat.kind))),
            (2, repeat.step),
            (2, repeat.times),
            (3, repeat.last),
            (1, u64::from(on.monday)),
            (1, u64::from(on.tuesday)),
            (1, u64::from(on.wednesday)),
            (1, u64::from(on.thursday)),
            (1, u64::from(on.friday)),
            (1, u64::from(on.saturday)),
            (1, u64::from(on.sunday)),
        ]
    }
}

// Fields into the front of a row.
fn put_fields(row: &mut [u8], numbers: &[(usize, u64)])
    requires widths_at_most_8 { every (λ f. nat_le f.0 8) numbers.now ≡ true }
    requires fields_inside { added_up (λ f. f.0) numbers.now ≤ length row.old }
    ensures { row.new ≡ placed 0 (fields (laid numbers.now) []) row.old }
{
    let mut start = 0;
    for &(width, value) in numbers {
        put_number(row, start, width, value);
        start += width;
    }
}

// 22 addresses, 0 where there are no more.
fn put_fours(row: &mut [u8], start: usize, more: &[u64])
    requires { start + 88 ≤ length row.old }
    ensures { row.new ≡ placed start (fours 22 more.now []) row.old }
{
    // Counted: all 22 have a place, also those past the end of `more`.
    for i in 0..22 {
        put_number(row, start + 4 * i, 4, more.get(i).copied().unwrap_or(0));
    }
}

// The title and the days left out, one behind the other, with zeros behind them.
pub fn put_body(body: &mut Body, title: &[u8], days: &[u64])
    requires title_at_most_255 { length title.now ≤ 255 }
    requires days_at_most_1000 { length days.now ≤ 1000 }
    ensures { body.new ≡ pad 3450 (title.now ++ threes days.now) }
{
    body.fill(0);
    put_bytes(body, 0, title);
    put_all(body, title.len(), 3, days);
}

// A first page: its fields, the addresses of the further pages, and the front of the body.
pub fn put_first(page: &mut Page, link: u64, number: u64, entry: &Entry, more: &[u64], body: &Body)
    ensures { page.new ≡ fields (first_fields link number (event_with entry.now.event entry.now.title.now entry.now.left_out.now)) (fours 22 more.now (take 384 body.now)) }
{
    let first = First {
        link,
        number,
        title: entry.title.len() as u64,
        days: entry.left_out.len() as u64,
        event: entry.event,
    };
    put_fields(page, &first.fields());
    put_fours(page, 40, more);
    put_bytes(page, 128, &body[..384]);
}

// A further page: its mark, and its part of the body.
pub fn put_further(page: &mut Page, body: &Body, j: u64)
    requires { j < 6 }
    ensures { page.new ≡ 2 ∷ take 511 (drop (384 + 511 * j) body.now) }
{
    let start = 384 + 511 * j as usize;
    page[0] = 2;
    put_bytes(page, 1, &body[start..start + 511]);
}

// How many further pages a body of so many bytes takes.
pub fn further(long: u64) -> u64
    ensures { result ≡ further long }
{
    long.saturating_sub(384).div_ceil(511)
}

// A first page with another address of the next event.
pub fn relink(page: &mut Page, link: u64)
    ensures { page.new ≡ relink link page.old }
{
    put_number(page, 1, 4, link);
}

fn byte_at(page: &Page, start: usize) -> u8
    requires { start < 512 }
    ensures { result ≡ at start 1 page.now }
{
    page[start]
}

fn week_in(page: &Page) -> Weekdays
    ensures { result ≡ week_value page.now }
{
    Weekdays {
        monday: byte_at(page, 33) == 1,
        tuesday: byte_at(page, 34) == 1,
        wednesday: byte_at(page, 35) == 1,
        thursday: byte_at(page, 36) == 1,
        friday: byte_at(page, 37) == 1,
        saturday: byte_at(page, 38) == 1,
        sunday: byte_at(page, 39) == 1,
    }
}

fn repeat_in(page: &Page) -> Repeat
    ensures { result ≡ repeat_value page.now }
{
    Repeat {
        kind: kind_of(byte_at(page, 25)),
        step: number_at(page, 26, 2),
        weekdays: week_in(page),
        times: number_at(page, 28, 2),
        last: number_at(page, 30, 3),
    }
}

fn event_in(page: &Page) -> Event
    ensures { result ≡ event_value page.now }
{
    Event {
        zone: byte_at(page, 16),
        first: number_at(page, 17, 3),
        minute: number_at(page, 20, 2),
        long: number_at(page, 22, 2),
        busy: byte_at(page, 24) == 1,
        repeat: repeat_in(page),
    }
}

// The address of a further page, from a first page.
pub fn address_in(page: &Page, i: u64) -> u64
    requires { i < 22 }
    ensures { result ≡ number 4 (drop (40 + 4 * i) page.now) }
{
    number_at(page, 40 + 4 * i as usize, 4)
}

// The days left out, from a body behind its title.
pub fn read_days(days: &mut [u64], body: &[u8])
    requires { 3 * length days.old ≤ length body.now }
    ensures { days.new ≡ read_threes (length days.old) body.now }
{
    // Counted: of days that are written behind a zip nothing is known.
    for (i, day) in days.iter_mut().enumerate() {
        *day = number_at(body, 3 * i, 3);
    }
}
