// What can be said to a house.
use dates::zone::Zone;
use records::command::Stretch;
use recurrence::event::Kind;

#[derive(Drop)]
pub struct Repeat {
    pub kind: Kind,
    pub step: u64,
    // Monday is 0.
    pub weekdays: Vec<u64>,
    // 0 for no end, as the command's bytes have it.
    pub times: u64,
    // The last day on which it may fall: FOR_EVER for no end, as the command's bytes have it.
    pub last: u64,
}

#[derive(Drop)]
pub struct Event {
    pub title: Vec<u8>,
    pub zone: u8,
    pub first: u64,
    pub minute: u64,
    pub long: u64,
    pub busy: bool,
    pub repeat: Repeat,
    pub left_out: Vec<u64>,
}

// As records' Command, with texts and lists of its own and no places in lent bytes.
#[derive(Drop)]
pub enum Command {
    Join {
        name: Vec<u8>,
    },
    Zone {
        number: u8,
        zone: Zone,
    },
    Put {
        person: u64,
        event: Event,
    },
    Change {
        person: u64,
        number: u64,
        event: Event,
    },
    DropEvent {
        person: u64,
        number: u64,
    },
    Skip {
        person: u64,
        number: u64,
        day: u64,
    },
    List {
        person: u64,
        stretch: Stretch,
    },
    Busy {
        people: Vec<u64>,
        stretch: Stretch,
    },
    Free {
        people: Vec<u64>,
        long: u64,
        stretch: Stretch,
    },
    Next {
        person: u64,
        from: u64,
    },
    Shown {
        person: u64,
        number: u64,
    },
}
