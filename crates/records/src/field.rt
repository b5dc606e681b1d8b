// The fields that commands are made of. Each reader takes a text and a place in it, and gives what stands there with the place behind it.
// A text that shrinks would be no plainer: each contract is one equation with a definition over the text and the place.
ghost use Rattle.std.specs.Prelude.{◌≡◌, ℕ, ◌+◌, ◌*◌, ◌/◌, ◌<◌, ◌≤◌, List, Option, IfSome, length, slice_index};
ghost use Rattle.std.specs.Ordering.{partial_le};
ghost use Rattle.records.specs.Reader.{number_at, wide, narrow, text, climbs, part, row, marks, weekdays};
ghost use Rattle.records.specs.Field.{field, wide_is, narrow_is};
ghost use Rattle.recurrence.specs.Value.{kind_of};
ghost use Rattle.recurrence.specs.Week.{no_days};

use crate::command::Part;
use pages::bytes::number;
use recurrence::event::{Kind, Weekdays};

// A number as commands spell it, in so many bytes.
pub(crate) trait Field: Copy + Ord {
    ghost WIDTH: { ℕ };

    ghost read: { List ℕ → ℕ → Self };

    // What stands at a place within bounds, with the place behind it.
    ghost found: { Self → Self → List ℕ → ℕ → Option (Self × ℕ) };

    const WIDTH: usize;

    // The number at a place.
    fn read(bytes: &[u8], at: usize) -> Self
        requires { at + WIDTH ≤ length bytes.now }
        ensures { result ≡ read bytes.now at };

    ghost found_is: { (lo hi : Self) (t : List ℕ) (k : ℕ) → found lo hi t k ≡ field WIDTH read (partial_le Self.partial_cmp) lo hi t k };
}

impl Field for u64 {
    ghost WIDTH = { 8 };

    ghost read = { number_at };

    ghost found = { wide };

    ghost found_is = { wide_is };

    const WIDTH: usize = 8;

    fn read(bytes: &[u8], at: usize) -> u64 {
        number(&bytes[at..at + 8])
    }
}

impl Field for u8 {
    ghost WIDTH = { 1 };

    ghost read = { slice_index };

    ghost found = { narrow };

    ghost found_is = { narrow_is };

    const WIDTH: usize = 1;

    fn read(bytes: &[u8], at: usize) -> u8 {
        bytes[at]
    }
}

// A number within bounds. They come one by one: the definitions take them so, and a range would be taken apart in every contract.
pub(crate) fn field_at<N: Field>(bytes: &[u8], at: usize, lo: N, hi: N) -> Option<(N, usize)>
    ensures { result ≡ N.found lo hi bytes.now at }
{
    if bytes.len().checked_sub(at)? < N::WIDTH {
        return None;
    }
    let n = N::read(bytes, at);
    if lo <= n && n <= hi {
        Some((n, at + N::WIDTH))
    } else {
        None
    }
}

// So many pieces of a width, with their count before them, the count within bounds.
#[inline(always)]
fn part_at<const WIDTH: usize>(
    bytes: &[u8],
    at: usize,
    few: u64,
    most: u64,
) -> Option<(Part, usize)>
    requires { 0 < WIDTH }
    ensures found { result ≡ part WIDTH few most bytes.now at }
    ensures inside { IfSome result (λ p. (p.1 ≡ p.0.start + WIDTH * p.0.count) × (p.1 ≤ length bytes.now)) }
{
    let (count, start) = field_at(bytes, at, few, most)?;
    let count = count as usize;
    if bytes.len().checked_sub(start)? / WIDTH < count {
        return None;
    }
    Some((Part { start, count }, start + WIDTH * count))
}

// Bytes with their count before them, the count within bounds.
pub(crate) fn text_at(bytes: &[u8], at: usize, few: u64, most: u64) -> Option<(Part, usize)>
    ensures { result ≡ text few most bytes.now at }
{
    part_at::<1>(bytes, at, few, most)
}

// Do numbers of eight bytes rise, within bounds?
fn rises(numbers: &[u8], lo: u64, hi: u64) -> bool
    requires { hi < 18446744073709551615 }
    ensures { result ≡ climbs (length numbers.now / 8) lo hi numbers.now 0 }
{
    let mut least = lo;
    for eight in numbers.as_chunks::<8>().0 {
        let n = number(eight);
        if n < least || n > hi {
            return false;
        }
        least = n + 1;
    }
    true
}

// Rising numbers with their count before them, the count within bounds.
#[inline(always)]
pub(crate) fn row_at(
    bytes: &[u8],
    at: usize,
    few: u64,
    most: u64,
    lo: u64,
    hi: u64,
) -> Option<(Part, usize)>
    requires most_at_most_1000 { most ≤ 1000 }
    requires hi_below_largest { hi < 18446744073709551615 }
    ensures found { result ≡ row few most lo hi bytes.now at }
    ensures inside { IfSome result (λ p. (p.1 ≡ p.0.start + 8 * p.0.count) × (p.1 ≤ length bytes.now)) }
{
    let (part, next) = part_at::<8>(bytes, at, few, most)?;
    if !rises(&bytes[part.start..next], lo, hi) {
        return None;
    }
    Some((part, next))
}

// The weekdays that numbers of eight bytes name.
#[inline(always)]
fn marked(numbers: &[u8]) -> Weekdays
    ensures { result ≡ marks (length numbers.now / 8) numbers.now 0 no_days }
{
    let mut on = Weekdays::none();
    for eight in numbers.as_chunks::<8>().0 {
        on = on.with(number(eight));
    }
    on
}

// Weekdays by rising number, with their count before them.
#[inline(always)]
pub(crate) fn weekdays_at(bytes: &[u8], at: usize) -> Option<(Weekdays, usize)>
    ensures { result ≡ weekdays bytes.now at }
{
    let (part, next) = row_at(bytes, at, 0, 7, 0, 6)?;
    Some((marked(&bytes[part.start..next]), next))
}

// The kind of a number; where no kind has it, yearly.
pub(crate) fn kind_of(number: u8) -> Kind
    ensures { result ≡ kind_of number }
{
    Kind::try_from(number).unwrap_or(Kind::Yearly)
}
