// Why a line is not understood.
use dates::read::Misread;
use std::alloc::{AllocError, AllocFailed};
use std::error::Error;
use std::fmt;

#[derive(Clone, Copy, Debug, PartialEq, Eq)]
pub enum Bad {
    // What should stand there.
    Wants(&'static str),
    Misread(Misread),
    NoMemory,
}

impl fmt::Display for Bad {
    fn fmt<W: fmt::Write>(&self, f: &mut fmt::Formatter<W>) -> fmt::Result {
        match self {
            Bad::Wants(what) => write!(f, "{what}"),
            Bad::Misread(why) => write!(f, "{why}"),
            Bad::NoMemory => write!(f, "there is no memory for it"),
        }
    }
}

impl Error for Bad {}

impl From<Misread> for Bad {
    fn from(why: Misread) -> Bad {
        Bad::Misread(why)
    }
}

impl From<AllocError> for Bad {
    fn from(_e: AllocError) -> Bad {
        Bad::NoMemory
    }
}

impl<T: Drop> From<AllocFailed<T>> for Bad {
    fn from(_e: AllocFailed<T>) -> Bad {
        Bad::NoMemory
    }
}
