// A zone by value: numbers as commands and pages spell them, so that any that stand there have a value.

// One Sunday of a month: the first to the fourth, or (5) the last.
#[derive(Clone, Copy, Debug, PartialEq, Eq)]
pub struct Sunday {
    pub month: u8,
    pub week: u8,
}

#[derive(Clone, Copy, Debug, PartialEq, Eq)]
pub struct Zone {
    // Minutes east of Greenwich, and 720 more.
    pub east: u64,
    // How many minutes clocks are put on in summer.
    pub extra: u64,
    // When summer begins and ends, at a minute of the day by standard time.
    pub begins: Sunday,
    pub ends: Sunday,
    pub minute: u64,
}
