// The parts of a row, one after the other.
ghost use Rattle.std.specs.Prelude.{◌≡◌, ◌<◌, ◌≤◌, ◌↔◌, List, ℕ, [], ◌∷◌, length, take, drop, IfOk, IsTrue, MatchResult};
ghost use Rattle.pages.specs.Bytes.{from_eight};

use pages::bytes::number;
use std::alloc::AllocFailed;
use std::error::Error;
use std::marker::Model;
use std::{fmt, io};

// A row has no words: it is none of its command, or there is no memory for them.
#[derive(Clone, Copy, Debug, PartialEq, Eq)]
pub struct NoWords;

impl fmt::Display for NoWords {
    fn fmt<W: fmt::Write>(&self, f: &mut fmt::Formatter<W>) -> fmt::Result {
        write!(f, "the row has no words")
    }
}

impl Error for NoWords {}

impl From<io::Error> for NoWords {
    fn from(_e: io::Error) -> NoWords {
        NoWords
    }
}

impl<T: Drop> From<AllocFailed<T>> for NoWords {
    fn from(_e: AllocFailed<T>) -> NoWords {
        NoWords
    }
}

// What is left of the row.
#[derive(Drop)]
pub struct Parts<'a> {
    rest: &'a [u8],
}

impl<'a> Model for Parts<'a> {
    ghost Value = { List ℕ };

    ghost view = { λ p. p.rest.now };
}

impl<'a> Parts<'a> {
    pub fn new(row: &'a [u8]) -> Parts<'a>
        ensures { result ≡ row.now }
    {
        Parts { rest: row }
    }

    pub fn is_empty(&self) -> bool
        ensures { IsTrue result ↔ (self.now ≡ []) }
    {
        self.rest.is_empty()
    }

    // No words, and the row as it was, where it ends before.
    pub fn take(&mut self, n: usize) -> Result<&'a [u8], NoWords>
        ensures { MatchResult result (λ part. (part.now ≡ take n self.old) × (self.new ≡ drop n self.old)) (λ _. (length self.old < n) × (self.new ≡ self.old)) }
    {
        let (part, rest) = self.rest.split_at_checked(n).ok_or(NoWords)?;
        self.rest = rest;
        Ok(part)
    }

    pub fn byte(&mut self) -> Result<u8, NoWords>
        ensures { MatchResult result (λ b. self.old ≡ b ∷ self.new) (λ _. (self.old ≡ []) × (self.new ≡ self.old)) }
    {
        let (byte, rest) = self.rest.split_first().ok_or(NoWords)?;
        self.rest = rest;
        Ok(*byte)
    }

    // A number of eight bytes, the highest first.
    pub fn eight(&mut self) -> Result<u64, NoWords>
        ensures { MatchResult result (λ n. (n ≡ from_eight 0 (take 8 self.old)) × (self.new ≡ drop 8 self.old)) (λ _. (length self.old < 8) × (self.new ≡ self.old)) }
    {
        let (bytes, rest) = self.rest.split_at_checked(8).ok_or(NoWords)?;
        self.rest = rest;
        Ok(number(bytes))
    }

    // Bytes with their count before them.
    pub fn text(&mut self) -> Result<&'a [u8], NoWords>
        ensures is { IfOk result (λ text. text.now ≡ take (from_eight 0 (take 8 self.old)) (drop 8 self.old)) }
        ensures left { IfOk result (λ _. self.new ≡ drop (from_eight 0 (take 8 self.old)) (drop 8 self.old)) }
    {
        let n = self.eight()?;
        self.take(n as usize)
    }
}
