// Requests, read off the input (docs/REPLAY.md, the table of kinds). A kind is one case of
// `Request`, one function of `kinds` that reads it and one arm of `request_at`.
#![tactic(auto)]

mod kinds;
mod numbers;

ghost use Rattle.std.specs.Prelude.{◌≡◌};
ghost use Rattle.requests.specs.Requests.{request_at};

use kinds::{
    IntoKind, PayloadKind, Start, into_request_at, list_request_at, offsets_request_at,
    payload_request_at, pull_request_at, signed_request_at, walk_request_at, write_request_at,
};
use products::TemplateReading;

const WALK: u8 = b'W';

const PULL: u8 = b'P';

const COPY: u8 = b'C';

const WRITE: u8 = b'M';

const FIELDS: u8 = b'F';

const SIGNED: u8 = b'S';

const INVENTORY: u8 = b'I';

const LIST: u8 = b'R';

const OFFSETS: u8 = b'O';

const WHEN_WHERE: u8 = b'T';

// A request's octets are those of the input from `from` up to `to`, where the next request starts.
#[derive(Clone, Copy)]
pub enum Request {
    // With so many numbers in the section table, and so many lines in the submessage table.
    Walk {
        numbers: u16,
        lines: u16,
        from: usize,
        to: usize,
    },
    Pull {
        from: usize,
        to: usize,
    },
    // Into a destination of so many octets.
    Copy {
        room: u32,
        from: usize,
        to: usize,
    },
    Write(Writing),
    Fields {
        number: u8,
        from: usize,
        to: usize,
    },
    Signed {
        from: usize,
        to: usize,
    },
    // Into a text buffer of so many octets.
    Inventory {
        room: u32,
        from: usize,
        to: usize,
    },
    // With so many entries in the table.
    List {
        room: u16,
        from: usize,
        to: usize,
    },
    // Of a template of this number, supported or not, by a reading.
    Offsets {
        reading: TemplateReading,
        template: u16,
        to: usize,
    },
    // Of a payload of section 4, by a reading.
    WhenWhere {
        reading: TemplateReading,
        from: usize,
        to: usize,
    },
}

// A message to be written: its plan and its store are octets of the input.
#[derive(Clone, Copy)]
pub struct Writing {
    pub discipline: u8,
    // The two reserved octets.
    pub first: u8,
    pub second: u8,
    // The place of the plan's first row, and how many there are.
    pub plan: usize,
    pub sections: u16,
    // The store's octets are those from `store` up to `end`.
    pub store: usize,
    pub end: usize,
    // Into a destination of so many octets.
    pub room: u32,
    // Where the next request starts.
    pub to: usize,
}

// The request that starts at octet `at`: none where the input has no such octet, and where what
// stands there is of another kind, of another reading, with a number over its limit, or cut by the
// end of the input, so that nothing after it can be told.
pub fn request_at(input: &[u8], at: usize) -> Option<Request>
    ensures { result ≡ request_at input.now at }
{
    if input.len() <= at {
        return None;
    }
    let start = Start { input, at };
    let kind = input[at];
    match kind {
        WALK => walk_request_at(start),
        PULL => pull_request_at(start),
        COPY => into_request_at(IntoKind::Copy, start),
        WRITE => write_request_at(start),
        FIELDS => payload_request_at(PayloadKind::Fields, start),
        SIGNED => signed_request_at(start),
        INVENTORY => into_request_at(IntoKind::Inventory, start),
        LIST => list_request_at(start),
        OFFSETS => offsets_request_at(start),
        WHEN_WHERE => payload_request_at(PayloadKind::WhenWhere, start),
        _ => None,
    }
}
