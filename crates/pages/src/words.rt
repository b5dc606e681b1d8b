// Bytes kept in the numbers of a memory, one in each; and rows of bytes. Room for what is put is asked for by each: both lengths are the caller's.
ghost use Rattle.std.specs.Prelude.{◌≡◌, ◌*◌, ◌≤◌, ◌++◌, drop, length, map};
ghost use Rattle.pages.specs.Bytes.{eight, low_bytes, over};
ghost use Rattle.pages.specs.Device.{zeros};
ghost use Rattle.pages.specs.Lists.{flat};

use crate::bytes::eight_bytes;

// What becomes of each element, into the front of a slice. Places are counted, since a proof knows no elements that are written behind `zip`.
pub(crate) fn put_each<T: Copy, U: Copy, F: Fn(T) -> U>(to: &mut [U], from: &[T], of: F)
    requires in_bounds { length from.now ≤ length to.old }
    requires callable { F.IsAlwaysCallable of }
    ensures { (f : T → U) → ((x : T) (r : U) → F.post of x r → r ≡ f x) → to.new ≡ map f from.now ++ drop (length from.now) to.old }
{
    for (i, x) in from.iter().enumerate() {
        to[i] = of(*x);
    }
}

// Bytes into the front of a row; records have their own at a place: the store's definitions say over, those of fields placed.
pub fn put_row(to: &mut [u8], from: &[u8])
    requires { length from.now ≤ length to.old }
    ensures { to.new ≡ over from.now to.old }
{
    to[..from.len()].copy_from_slice(from);
}

// Zeros into the front of a row.
pub fn blank_row(to: &mut [u8])
    requires { 512 ≤ length to.old }
    ensures { to.new ≡ over (zeros 512) to.old }
{
    to[..512].fill(0);
}

// Bytes into the front of a memory, one to a number.
pub fn put_bytes(to: &mut [u64], from: &[u8])
    requires { length from.now ≤ length to.old }
    ensures { to.new ≡ over from.now to.old }
{
    put_each(to, from, u64::from);
}

// The low bytes of numbers into the front of a row.
pub fn put_low_bytes(to: &mut [u8], from: &[u64])
    requires { length from.now ≤ length to.old }
    ensures { to.new ≡ over (low_bytes from.now) to.old }
{
    put_each(to, from, |n| (n % 256) as u8);
}

// Numbers into the front of a row, eight bytes for each.
pub fn put_numbers(to: &mut [u8], numbers: &[u64])
    requires { 8 * length numbers.now ≤ length to.old }
    ensures { to.new ≡ over (flat eight numbers.now) to.old }
{
    // Counted, as in put_each.
    for (i, number) in numbers.iter().enumerate() {
        to[8 * i..8 * i + 8].copy_from_slice(&eight_bytes(*number));
    }
}
