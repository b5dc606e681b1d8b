// Bytes and numbers in their places in a row: read from there, and put there.
ghost use Rattle.std.specs.Prelude.{◌≡◌, ◌+◌, ◌*◌, ◌<◌, ◌≤◌, [], ◌∷◌, length};
ghost use Rattle.pages.specs.Bytes.{in_bytes, placed};
ghost use Rattle.pages.specs.Fields.{at};
ghost use Rattle.pages.specs.Lists.{flat};

pub use pages::Page;
use pages::bytes::{eight_bytes, number};

// The number of so many bytes from a place on. A width is no const here or below: the fields of a page are a list of widths.
pub fn number_at(row: &[u8], start: usize, width: usize) -> u64
    requires width_at_most_8 { width ≤ 8 }
    requires number_inside { start + width ≤ length row.now }
    ensures { result ≡ at start width row.now }
{
    number(&row[start..start + width])
}

pub(crate) fn put_byte(row: &mut [u8], start: usize, byte: u8)
    requires { start < length row.old }
    ensures { row.new ≡ placed start (byte ∷ []) row.old }
{
    row[start] = byte;
}

pub(crate) fn put_bytes(row: &mut [u8], start: usize, bytes: &[u8])
    requires { start + length bytes.now ≤ length row.old }
    ensures { row.new ≡ placed start bytes.now row.old }
{
    row[start..start + bytes.len()].copy_from_slice(bytes);
}

// The low bytes of a number, the highest first.
pub(crate) fn put_number(row: &mut [u8], start: usize, width: usize, number: u64)
    requires width_at_most_8 { width ≤ 8 }
    requires number_inside { start + width ≤ length row.old }
    ensures { row.new ≡ placed start (in_bytes width number []) row.old }
{
    put_bytes(row, start, &eight_bytes(number)[8 - width..]);
}

// Numbers one behind the other, each in so many bytes.
pub(crate) fn put_all(row: &mut [u8], start: usize, width: usize, numbers: &[u64])
    requires width_at_most_8 { width ≤ 8 }
    requires numbers_inside { start + width * length numbers.now ≤ length row.old }
    ensures { row.new ≡ placed start (flat (λ n. in_bytes width n []) numbers.now) row.old }
{
    // Counted: what is written through chunks of the row isn't known of the row.
    for (i, &number) in numbers.iter().enumerate() {
        put_number(row, start + width * i, width, number);
    }
}
