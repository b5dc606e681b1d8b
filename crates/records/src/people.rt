// What pages hold of people: the root with their count, and four records of 128 bytes on each page of people.
ghost use Rattle.std.specs.Prelude.{◌≡◌, ◌<◌, ◌≤◌, length};
ghost use Rattle.pages.specs.Fields.{at};
ghost use Rattle.pages.specs.Lists.{same};
ghost use Rattle.records.specs.Does.{block, head_in, name_in, names_on, new_person, new_record, new_root, next_in, put_block};

use crate::place::{Page, number_at, put_byte, put_bytes, put_number};

// The root's numbers.
#[derive(Clone, Copy, Debug, PartialEq, Eq)]
pub struct Root {
    // How many people there are.
    pub people: u64,
    // The weight of all.
    pub weight: u64,
    // Where the search for free pages begins.
    pub cursor: u64,
}

impl Root {
    pub fn of(page: &Page) -> Root
        ensures people { result.people ≡ at 0 8 page.now }
        ensures weight { result.weight ≡ at 8 8 page.now }
        ensures cursor { result.cursor ≡ at 16 8 page.now }
    {
        Root {
            people: number_at(page, 0, 8),
            weight: number_at(page, 8, 8),
            cursor: number_at(page, 16, 8),
        }
    }

    // The root page with these numbers.
    pub fn put(self, page: &mut Page)
        ensures { page.new ≡ new_root page.old self.people self.weight self.cursor }
    {
        put_number(page, 0, 8, self.people);
        put_number(page, 8, 8, self.weight);
        put_number(page, 16, 8, self.cursor);
    }
}

// A person's numbers. That the place is below 4 is asked for by each: it is a remainder by 4 where it is worked out.
#[derive(Clone, Copy, Debug, PartialEq, Eq)]
pub struct Person {
    // The number of the next event.
    pub next: u64,
    // The page of the newest event; 0 where there is none, as the page has it.
    pub head: u64,
}

impl Person {
    pub fn of(page: &Page, place: u64) -> Person
        requires { place < 4 }
        ensures next { result.next ≡ next_in (block place page.now) }
        ensures head { result.head ≡ head_in (block place page.now) }
    {
        let row = &page[128 * place as usize..];
        Person {
            next: number_at(row, 1, 8),
            head: number_at(row, 9, 4),
        }
    }

    // The person's record with these numbers.
    pub fn put(self, page: &mut Page, place: u64)
        requires { place < 4 }
        ensures { page.new ≡ put_block place (new_record (block place page.old) self.next self.head) page.old }
    {
        let start = 128 * place as usize;
        self.put_record(&mut page[start..start + 128]);
    }

    // A slice: tried as an array, and what is written through one that is lent out of the page isn't known of the page.
    fn put_record(self, row: &mut [u8])
        requires { length row.old ≡ 128 }
        ensures { row.new ≡ new_record row.old self.next self.head }
    {
        put_number(row, 1, 8, self.next);
        put_number(row, 9, 4, self.head);
    }
}

// Does the record that bytes begin with have this name? A name that would be longer than the bytes ends with them.
fn is_named(from: &[u8], name: &[u8]) -> bool
    requires { 13 ≤ length from.now }
    ensures { result ≡ same (name_in from.now) name.now }
{
    let long = number_at(from, 0, 1) as usize;
    let long = long.min(from.len() - 13);
    &from[13..13 + long] == name
}

// Does one of the first people on a page have this name?
pub fn has_name(page: &Page, count: u64, name: &[u8]) -> bool
    requires { count ≤ 4 }
    ensures { result ≡ names_on page.now count name.now }
{
    // By place: a name may go on past its record, so chunks of 128 bytes would cut it.
    (0..count as usize).any(|a| is_named(&page[128 * a..], name))
}

// The record of somebody who joins. A name is a part of lent bytes, so its length is asked for.
fn fill_person(row: &mut [u8], name: &[u8])
    requires row_of_128 { length row.old ≡ 128 }
    requires name_at_most_64 { length name.now ≤ 64 }
    ensures { row.new ≡ new_person name.now }
{
    row.copy_from_slice(&[0; 128]);
    put_byte(row, 0, name.len() as u8);
    put_number(row, 1, 8, 1);
    put_number(row, 9, 4, 0);
    put_bytes(row, 13, name);
}

// A page with the record of somebody who joins, filled where it lies.
pub fn put_person(page: &mut Page, place: u64, name: &[u8])
    requires place_below_4 { place < 4 }
    requires name_at_most_64 { length name.now ≤ 64 }
    ensures { page.new ≡ put_block place (new_person name.now) page.old }
{
    let start = 128 * place as usize;
    fill_person(&mut page[start..start + 128], name);
}
