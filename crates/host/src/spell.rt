// Numbers and texts behind what stands in a row of bytes, as commands have them.
ghost use Rattle.std.specs.Prelude.{◌≡◌, ◌∷◌, ◌++◌, OnOk};
ghost use Rattle.pages.specs.Bytes.{eight, with_length};
ghost use Rattle.pages.specs.Lists.{flat};
ghost use Rattle.records.specs.Command.{numbers};

use pages::bytes::eight_bytes;
use std::alloc::AllocError;

// Eight bytes, the highest first.
pub fn put_eight(out: &mut Vec<u8>, n: u64) -> Result<(), AllocError>
    ensures { OnOk result (out.new.items ≡ out.old.items ++ eight n) }
{
    out.extend_from_slice(&eight_bytes(n))?;
    Ok(())
}

// Bytes, with their count before them.
pub fn put_text(out: &mut Vec<u8>, text: &[u8]) -> Result<(), AllocError>
    ensures { OnOk result (out.new.items ≡ out.old.items ++ with_length text.now) }
{
    put_eight(out, text.len() as u64)?;
    out.extend_from_slice(text)?;
    Ok(())
}

// Numbers, one behind the other.
pub fn put_eights(out: &mut Vec<u8>, list: &[u64]) -> Result<(), AllocError>
    ensures { OnOk result (out.new.items ≡ out.old.items ++ flat eight list.now) }
{
    for n in list {
        put_eight(out, *n)?;
    }
    Ok(())
}

// Numbers, with their count before them.
pub fn put_numbers(out: &mut Vec<u8>, list: &[u64]) -> Result<(), AllocError>
    ensures { OnOk result (out.new.items ≡ out.old.items ++ numbers list.now) }
{
    put_eight(out, list.len() as u64)?;
    put_eights(out, list)
}

// The number of a command, and numbers of its own.
pub fn put_code(out: &mut Vec<u8>, code: u8, list: &[u64]) -> Result<(), AllocError>
    ensures { OnOk result (out.new.items ≡ out.old.items ++ (code ∷ flat eight list.now)) }
{
    out.push(code)?;
    put_eights(out, list)
}
