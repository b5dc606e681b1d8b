// Bytes as text in hexadecimal digits, two for each, the higher first; a dash for no bytes.
ghost use Rattle.std.specs.Prelude.{◌≡◌, ◌<◌, ◌+◌, ◌*◌, ◌&&◌, [], ◌++◌, IfOk, IfSome, None, Some, vec_items, OnOk};
ghost use Rattle.pages.specs.Hex.{digit_of, digit_value, hex, is_digit, read_hex, read_onto};
ghost use Rattle.pages.specs.Lists.{pick};
ghost use Rattle.std.specs.Option.{option_map};

use std::alloc::{AllocError, Global};

// A digit's value, in either case. By hand: the definitions are over bytes, and the library's digits are characters.
fn value(digit: u8) -> Option<u8>
    ensures is { result ≡ pick (is_digit digit) (Some (digit_value digit)) None }
    ensures bound { IfSome result (λ v. v < 16) }
{
    match digit {
        b'0'..=b'9' => Some(digit - b'0'),
        b'a'..=b'f' => Some(digit - b'a' + 10),
        b'A'..=b'F' => Some(digit - b'A' + 10),
        _ => None,
    }
}

fn digit(value: u8) -> u8
    requires { value < 16 }
    ensures { result ≡ digit_of value }
{
    if value < 10 {
        b'0' + value
    } else {
        b'a' - 10 + value
    }
}

// The byte that two digits stand for.
fn byte(high: u8, low: u8) -> Option<u8>
    ensures { result ≡ pick (is_digit high && is_digit low) (Some (16 * digit_value high + digit_value low)) None }
{
    Some(16 * value(high)? + value(low)?)
}

// The bytes that pairs of digits stand for.
fn read_pairs(heap: Global, text: &[u8]) -> Result<Option<Vec<u8>>, AllocError>
    ensures { IfOk result (λ v. option_map vec_items v ≡ read_onto [] text.now) }
{
    let mut bytes = Vec::new(heap);
    let (pairs, rest) = text.as_chunks::<2>();
    for &[high, low] in pairs {
        let Some(byte) = byte(high, low) else {
            return Ok(None);
        };
        bytes.push(byte)?;
    }
    Ok(rest.is_empty().then_some(bytes))
}

// The bytes that digits stand for, or nothing where the text is no such digits.
pub fn read(heap: Global, text: &[u8]) -> Result<Option<Vec<u8>>, AllocError>
    ensures { IfOk result (λ v. option_map vec_items v ≡ read_hex text.now) }
{
    if text.len() == 1 && text[0] == b'-' {
        return Ok(Some(Vec::new(heap)));
    }
    read_pairs(heap, text)
}

// Writes the digits of bytes after what stands in `out`.
pub fn write(out: &mut Vec<u8>, bytes: &[u8]) -> Result<(), AllocError>
    ensures { OnOk result (out.new.items ≡ out.old.items ++ hex bytes.now) }
{
    if bytes.is_empty() {
        out.push(b'-')?;
        return Ok(());
    }
    for b in bytes {
        out.push(digit(*b / 16))?;
        out.push(digit(*b % 16))?;
    }
    Ok(())
}
