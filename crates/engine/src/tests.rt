// A worked week as bytes: each command is read, and each event written back; and what is no command is refused with 1.
use crate::{MEMORY, ROW, step};
use records::command::{Command, Draft, Part};
use records::read::read;
use records::write::{Entry, write_event};
use std::alloc::{AllocError, Global};
use std::test::Fail;

const WEEK: [&str; 16] = [
    // join Ann
    "010000000000000003416e6e",
    // join Ben
    "01000000000000000342656e",
    // zone 1, an hour east, summer from the last Sunday of March to the last of October
    "0201000000000000030c000000000000003c03050a050000000000000078",
    // zone 2, five hours west, summer from the second Sunday of March to the first of November
    "020200000000000001a4000000000000003c03020b010000000000000078",
    // put watch
    "0300000000000000000000000000000005776174636801000000000000256a000000000000021c000000000000007801020000000000000001000000000000000200000000000000000000000000000002000000000000000400000000000026480000000000000000",
    // put call
    "030000000000000000000000000000000463616c6c02000000000000256c000000000000021c000000000000001e010100000000000000020000000000000000000000000000000300000000000026480000000000000000",
    // put paper
    "030000000000000001000000000000000570617065720000000000000025370000000000000258000000000000003c010300000000000000010000000000000000000000000000000000000000000026480000000000000000",
    // put meet
    "03000000000000000100000000000000046d6565740100000000000025720000000000000258000000000000005a010500000000000000010000000000000000000000000000000000000000000026480000000000000000",
    // change watch, with two days left out
    "04000000000000000000000000000000010000000000000005776174636801000000000000256a000000000000021c000000000000007800020000000000000001000000000000000200000000000000000000000000000002000000000000000400000000000026480000000000000002000000000000256c0000000000002571",
    // drop
    "0500000000000000000000000000000002",
    // skip watch on 25 March
    "0600000000000000000000000000000001000000000000256c",
    // list Ann
    "0700000000000000000000000000d274400000000000d2bd60",
    // busy both on 31 March
    "080000000000000002000000000000000000000000000000010000000000d2a1400000000000d2a6e0",
    // free both for two hours
    "0900000000000000020000000000000000000000000000000100000000000000780000000000d2a3220000000000d2a578",
    // next from 26 March
    "0a00000000000000000000000000d28520",
    // shown
    "0b00000000000000000000000000000001",
];

// A machine that power has come to, and a row.
#[derive(Drop)]
struct House {
    memory: Vec<u64>,
    row: Vec<u8>,
}

impl House {
    fn new(heap: Global) -> Result<House, AllocError> {
        let mut memory = vec![in heap; 0u64; MEMORY]?;
        let mut row = vec![in heap; 0u8; ROW]?;
        let _ = step(
            memory.as_mut_slice(),
            0,
            &[0, 0, 0, 0, 0, 0, 1, 0],
            row.as_mut_slice(),
        );
        Ok(House { memory, row })
    }

    // How a command ends: its refusal, or 1000 for anything else.
    fn answer(&mut self, bytes: &[u8]) -> u64 {
        match step(
            self.memory.as_mut_slice(),
            1,
            bytes,
            self.row.as_mut_slice(),
        ) {
            Err(refusal) => u64::from(refusal),
            Ok(_) => 1000,
        }
    }
}

fn bytes_of(heap: Global, hex: &str) -> Result<Vec<u8>, Fail> {
    match pages::hex::read(heap, hex.as_bytes())? {
        Some(bytes) => Ok(bytes),
        None => Err(Fail::new("no hexadecimal digits")),
    }
}

// So many pieces of a width from a place on.
fn pieces(bytes: &[u8], part: Part, width: usize) -> Result<&[u8], Fail> {
    let end = part.start.saturating_add(part.count.saturating_mul(width));
    match bytes.get(part.start..end) {
        Some(pieces) => Ok(pieces),
        None => Err(Fail::new("a list past the end")),
    }
}

// An event written again, from what was read of it.
fn again(heap: Global, bytes: &[u8], draft: Draft) -> Result<Vec<u8>, Fail> {
    let mut days = Vec::new(heap);
    for eight in pieces(bytes, draft.left_out, 8)?.as_chunks::<8>().0 {
        days.push(u64::from_be_bytes(*eight))?;
    }
    let title = pieces(bytes, draft.title, 1)?;
    let mut row = vec![in heap; 0u8; 8386]?;
    let entry = Entry {
        event: draft.event,
        title,
        left_out: days.as_slice(),
    };
    let Some(size) = write_event(row.as_mut_slice(), &entry) else {
        return Err(Fail::new("not written"));
    };
    row.truncate(size);
    Ok(row)
}

#[test]
fn a_week_is_read_and_written_back(rt: HostRuntime) -> Result<(), Fail> {
    let heap = rt.alloc();
    let mut house = House::new(heap)?;
    let mut events = 0u64;
    for hex in WEEK {
        let bytes = bytes_of(heap, hex)?;
        assert_eq!(rt; house.answer(bytes.as_slice()), 2);
        let (front, draft) = match read(bytes.as_slice()) {
            Some(Command::Put(_, draft)) => (9, draft),
            Some(Command::Change(_, _, draft)) => (17, draft),
            Some(_) => continue,
            None => return Err(Fail::new("not read")),
        };
        let written = again(heap, bytes.as_slice(), draft)?;
        assert!(rt; bytes.get(front..) == Some(written.as_slice()));
        events = events.saturating_add(1);
    }
    assert_eq!(rt; events, 5);
    Ok(())
}

#[test]
fn a_byte_wrong_missing_or_too_many(rt: HostRuntime) -> Result<(), Fail> {
    let heap = rt.alloc();
    let mut house = House::new(heap)?;
    for hex in WEEK {
        let mut bytes = bytes_of(heap, hex)?;
        assert!(rt; bytes.len() > 1);
        bytes.push(0)?;
        assert_eq!(rt; house.answer(bytes.as_slice()), 1);
        let _ = bytes.pop();
        let last = bytes.pop();
        assert!(rt; last.is_some());
        assert_eq!(rt; house.answer(bytes.as_slice()), 1);
        let _ = bytes.push(last.unwrap_or(0));
        assert_eq!(rt; house.answer(bytes.as_slice()), 2);
        // The highest byte of the first number, or the number of a zone.
        if let Some(b) = bytes.get_mut(1) {
            *b = 255;
        }
        assert_eq!(rt; house.answer(bytes.as_slice()), 1);
    }
    Ok(())
}

#[test]
fn many_days_left_out_and_many_bytes(rt: HostRuntime) -> Result<(), Fail> {
    let heap = rt.alloc();
    let mut house = House::new(heap)?;
    assert_eq!(rt; house.answer(&[]), 1);
    let many = vec![in heap; 3u8; 100000]?;
    assert_eq!(rt; house.answer(many.as_slice()), 1);
    // The first event of the week with its count of days left out as the last eight bytes.
    for (count, end) in [(1000u64, 2u64), (1001, 1)] {
        let mut bytes = bytes_of(heap, WEEK[4])?;
        bytes.truncate(bytes.len().saturating_sub(8));
        bytes.extend_from_slice(&pages::bytes::eight_bytes(count))?;
        for i in 0..count {
            bytes.extend_from_slice(&pages::bytes::eight_bytes(i.saturating_add(10000)))?;
        }
        assert_eq!(rt; house.answer(bytes.as_slice()), end);
    }
    Ok(())
}
