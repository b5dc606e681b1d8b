// The two devices, side by side.
ghost use Rattle.std.specs.Prelude.{◌≡◌, ◌++◌, Some, codes, decimal};
ghost use Rattle.pages.specs.Deeds.{SideOf, other, side_number};

use std::error::Error;
use std::fmt;

#[derive(Clone, Copy, Debug, PartialEq, Eq)]
pub enum Side {
    First,
    Second,
}

impl Side {
    pub fn other(self) -> Side
        ensures { result ≡ other self }
    {
        match self {
            Side::First => Side::Second,
            Side::Second => Side::First,
        }
    }
}

impl From<Side> for u64 {
    ghost from_gives = { λ side number. number ≡ side_number side };

    fn from(side: Side) -> u64 {
        match side {
            Side::First => 0,
            Side::Second => 1,
        }
    }
}

// A number that no side has.
#[derive(Clone, Copy, Debug, PartialEq, Eq)]
pub struct NoSide(pub u64);

// Of 0 and 1 alone.
impl TryFrom<u64> for Side {
    type Error = NoSide;

    ghost try_from_gives = { SideOf };

    fn try_from(number: u64) -> Result<Side, NoSide> {
        match number {
            0 => Ok(Side::First),
            1 => Ok(Side::Second),
            _ => Err(NoSide(number)),
        }
    }
}

impl fmt::Display for NoSide {
    ghost output = { λ e. Some (codes "no side has number " ++ decimal e.0) };

    fn fmt<W: fmt::Write>(&self, f: &mut fmt::Formatter<W>) -> fmt::Result {
        write!(f, "no side has number {}", self.0)
    }
}

impl Error for NoSide {}
