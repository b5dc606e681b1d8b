// What a part of the store does next, and what it writes.
use crate::side::Side;

#[derive(Clone, Copy, Debug, PartialEq, Eq)]
pub enum Content {
    // Zeros.
    Blank,
    // The page that was told.
    Told,
    // The header at hand.
    Header,
    // A page of the batch.
    Batch(u64),
}

#[derive(Clone, Copy, Debug, PartialEq, Eq)]
pub enum Deed {
    // A side and a page.
    Read(Side, u64),
    Write(Side, u64, Content),
    // It is through. A deed like the others, since the machine keeps a state then, too.
    Ready,
}

// What a part of the store awaits then, and its deed.
#[derive(Clone, Copy, Debug, PartialEq, Eq)]
pub struct Step<S> {
    pub state: S,
    pub deed: Deed,
}
