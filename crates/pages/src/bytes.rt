// Numbers as eight bytes, the highest first.
ghost use Rattle.std.specs.Prelude.{◌≡◌, take};
ghost use Rattle.pages.specs.Bytes.{eight, from_eight};

// The eight bytes of a number.
pub fn eight_bytes(number: u64) -> [u8; 8]
    ensures { result ≡ eight number }
{
    number.to_be_bytes()
}

// The number of the first eight bytes, or of as many as there are. Eight at once is what a processor loads at once.
pub fn number(bytes: &[u8]) -> u64
    ensures { result ≡ from_eight 0 (take 8 bytes.now) }
{
    if let Some(eight) = bytes.first_chunk() {
        return u64::from_be_bytes(*eight);
    }
    let mut n = 0;
    for b in bytes {
        n = 256 * n + u64::from(*b);
    }
    n
}
