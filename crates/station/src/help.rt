// What can be said, with an example of each.
use std::fmt;

// How a command is said, and an example.
pub struct Topic {
    pub name: &'static str,
    pub how: &'static str,
    pub example: &'static str,
}

impl fmt::Display for Topic {
    fn fmt<W: fmt::Write>(&self, f: &mut fmt::Formatter<W>) -> fmt::Result {
        let how = self.how;
        let example = self.example;
        write!(f, "{how}\n    {example}")
    }
}

pub const TOPICS: [Topic; 14] = [
    Topic {
        name: "join",
        how: "join NAME: a new person, who gets the next number",
        example: "join Ann",
    },
    Topic {
        name: "zone",
        how: "zone NUMBER east HOURS [summer HOURS from SUNDAY to SUNDAY at TIME]: the rules of one of the zones 0 to 15; a SUNDAY is first, second, third, fourth or last, and sunday of MONTH",
        example: "zone 1 east +1:00 summer 1:00 from last sunday of 3 to last sunday of 10 at 02:00",
    },
    Topic {
        name: "put",
        how: "put PERSON \"TITLE\" on DAY at TIME for HOURS, and then any of: zone NUMBER; free; every N days, weeks on mon wed, months, months on the same weekday, months on the last weekday, or years; until DAY; times N; without DAY DAY: a new event, which gets the next number",
        example: "put 0 \"watch\" on 2026-03-23 at 09:00 for 2:00 every 2 weeks on mon wed until 2026-10-30 without 2026-03-25",
    },
    Topic {
        name: "change",
        how: "change PERSON EVENT \"TITLE\" on DAY .. as for put: an event is put anew",
        example: "change 0 1 \"watch\" on 2026-03-23 at 10:00 for 1:30",
    },
    Topic {
        name: "drop",
        how: "drop PERSON EVENT: an event is taken out",
        example: "drop 0 1",
    },
    Topic {
        name: "skip",
        how: "skip PERSON EVENT DAY: one of an event's days is left out",
        example: "skip 0 1 2026-03-25",
    },
    Topic {
        name: "list",
        how: "list PERSON FROM TO: what meets a stretch of time; FROM and TO are days, or days with a time: 2026-03-23, 2026-03-23T07:00 or 2026-03-23 07:00",
        example: "list 0 2026-03-23 2026-04-01T12:00",
    },
    Topic {
        name: "busy",
        how: "busy PERSON,PERSON FROM TO: when some of these people are busy",
        example: "busy 0,1 2026-03-23 2026-03-30",
    },
    Topic {
        name: "free",
        how: "free PERSON,PERSON HOURS FROM TO: the first time at which all of them have so long",
        example: "free 0,1 2:00 2026-03-23 2026-03-30",
    },
    Topic {
        name: "next",
        how: "next PERSON FROM: the next event that begins",
        example: "next 0 2026-03-23 07:00",
    },
    Topic {
        name: "shown",
        how: "shown PERSON EVENT: an event as it was put",
        example: "shown 0 1",
    },
    Topic {
        name: "hex",
        how: "hex DIGITS: a command by its bytes, - for none",
        example: "hex 010000000000000003416e6e",
    },
    Topic {
        name: "help",
        how: "help, or help NAME",
        example: "help put",
    },
    Topic {
        name: "quit",
        how: "quit: the end",
        example: "quit",
    },
];

// The topic of a name.
pub fn find(name: &str) -> Option<&'static Topic> {
    TOPICS.iter().find(|topic| topic.name == name)
}
