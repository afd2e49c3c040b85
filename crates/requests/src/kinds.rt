// One function for each kind of request: its numbers and octets, read off the input
// (docs/REPLAY.md, the table of kinds). What is left of the input is tested before each sum, so
// that none can wrap.
ghost use Rattle.std.specs.Prelude.{◌≡◌, ◌<◌, length};
ghost use Rattle.requests.specs.Requests.{walk_request_at, pull_request_at, into_request_at};
ghost use Rattle.requests.specs.Requests.{into_kind, write_request_at, payload_request_at};
ghost use Rattle.requests.specs.Requests.{payload_kind, signed_request_at, list_request_at};
ghost use Rattle.requests.specs.Requests.{offsets_request_at, reading_of};

use crate::numbers::{four_octets, two_octets};
use crate::{Request, Writing};
use products::TemplateReading;

// Octets before a walked file: kind, numbers, lines, length.
const WALK_HEAD: usize = 9;

// Octets before a pulled file: kind, length.
const PULL_HEAD: usize = 5;

// Octets before a file that is answered into a destination: kind, length of that, length.
const INTO_HEAD: usize = 9;

// Octets before a plan: kind, discipline, two reserved, sections.
const WRITE_HEAD: usize = 6;

// Octets of a section of a plan: number, offset and length, eight each.
const ROW_SIZE: usize = 24;

// Octets of the length of a store, and of that of a destination behind it.
const LENGTH_SIZE: usize = 4;

// Octets before a payload: kind, section number or reading, length.
const PAYLOAD_HEAD: usize = 6;

// Octets before a signed number's: kind, length.
const SIGNED_HEAD: usize = 2;

// Octets before a list: kind, entries, length.
const LIST_HEAD: usize = 7;

// Octets of a request for offsets: kind, reading, template number.
const OFFSETS_HEAD: usize = 4;

// The largest tables that a walk can ask for: 2,048 rows of three numbers, and so many lines.
const MOST_NUMBERS: u16 = 6_144;

const MOST_LINES: u16 = 512;

// The longest destination.
const MOST_ROOM: u32 = 262_144;

// The largest table that a list can ask for.
const MOST_ENTRIES: u16 = 512;

// The reading of templates as the crate.
const AS_CRATE: u8 = 0;

// The one by the Manual.
const BY_MANUAL: u8 = 1;

// A place at which the input has an octet: where a request starts, with its kind.
#[derive(Clone, Copy)]
pub(crate) struct Start<'a> {
    pub(crate) input: &'a [u8],
    pub(crate) at: usize,
    ghost inside: { at < length input.now },
}

// What a file is answered by into a destination.
#[derive(Clone, Copy)]
pub(crate) enum IntoKind {
    Copy,
    Inventory,
}

// What is asked of a payload: its fields, by the number of its section, or when and where, by a
// reading.
#[derive(Clone, Copy)]
pub(crate) enum PayloadKind {
    Fields,
    WhenWhere,
}

// Numbers (2); lines (2); length (4); the file.
pub(crate) fn walk_request_at(start: Start<'_>) -> Option<Request>
    ensures { result ≡ walk_request_at start.entry.input.now start.entry.at }
{
    let Start { input, at } = start;
    if input.len() - at < WALK_HEAD {
        return None;
    }
    let from = at + WALK_HEAD;
    let numbers = two_octets(input, at + 1);
    let lines = two_octets(input, at + 3);
    let size = four_octets(input, at + 5) as usize;
    if input.len() - from < size {
        return None;
    }
    if MOST_NUMBERS < numbers {
        return None;
    }
    if MOST_LINES < lines {
        return None;
    }
    Some(Request::Walk {
        numbers,
        lines,
        from,
        to: from + size,
    })
}

// Length (4); the file.
pub(crate) fn pull_request_at(start: Start<'_>) -> Option<Request>
    ensures { result ≡ pull_request_at start.entry.input.now start.entry.at }
{
    let Start { input, at } = start;
    if input.len() - at < PULL_HEAD {
        return None;
    }
    let from = at + PULL_HEAD;
    let size = four_octets(input, at + 1) as usize;
    if input.len() - from < size {
        return None;
    }
    Some(Request::Pull {
        from,
        to: from + size,
    })
}

// Length of the destination (4); length (4); the file.
pub(crate) fn into_request_at(kind: IntoKind, start: Start<'_>) -> Option<Request>
    ensures { result ≡ into_request_at (into_kind kind) start.entry.input.now start.entry.at }
{
    let Start { input, at } = start;
    if input.len() - at < INTO_HEAD {
        return None;
    }
    let from = at + INTO_HEAD;
    let room = four_octets(input, at + 1);
    let octets = four_octets(input, at + 5) as usize;
    if input.len() - from < octets {
        return None;
    }
    if MOST_ROOM < room {
        return None;
    }
    let to = from + octets;
    match kind {
        IntoKind::Copy => Some(Request::Copy { room, from, to }),
        IntoKind::Inventory => Some(Request::Inventory { room, from, to }),
    }
}

// Discipline (1); reserved (1), reserved (1); sections of the plan (2); its rows; length (4); the
// store; length of the destination (4).
pub(crate) fn write_request_at(start: Start<'_>) -> Option<Request>
    ensures { result ≡ write_request_at start.entry.input.now start.entry.at }
{
    let Start { input, at } = start;
    if input.len() - at < WRITE_HEAD {
        return None;
    }
    let plan = at + WRITE_HEAD;
    let sections = two_octets(input, at + 4);
    let rows = sections as usize * ROW_SIZE;
    if input.len() - plan < rows + LENGTH_SIZE {
        return None;
    }
    let store = plan + rows + LENGTH_SIZE;
    let size = four_octets(input, plan + rows) as usize;
    if input.len() - store < size + LENGTH_SIZE {
        return None;
    }
    let end = store + size;
    let room = four_octets(input, end);
    if MOST_ROOM < room {
        return None;
    }
    Some(Request::Write(Writing {
        discipline: input[at + 1],
        first: input[at + 2],
        second: input[at + 3],
        plan,
        sections,
        store,
        end,
        room,
        to: end + LENGTH_SIZE,
    }))
}

// Section number, or reading (1); length (4); the payload.
pub(crate) fn payload_request_at(kind: PayloadKind, start: Start<'_>) -> Option<Request>
    ensures { result ≡ payload_request_at (payload_kind kind) start.entry.input.now start.entry.at }
{
    let Start { input, at } = start;
    if input.len() - at < PAYLOAD_HEAD {
        return None;
    }
    let from = at + PAYLOAD_HEAD;
    let size = four_octets(input, at + 2) as usize;
    if input.len() - from < size {
        return None;
    }
    let number = input[at + 1];
    let to = from + size;
    match kind {
        PayloadKind::Fields => Some(Request::Fields { number, from, to }),
        PayloadKind::WhenWhere => {
            let Some(reading) = reading_of(number) else {
                return None;
            };
            Some(Request::WhenWhere { reading, from, to })
        }
    }
}

// Length (1); the octets.
pub(crate) fn signed_request_at(start: Start<'_>) -> Option<Request>
    ensures { result ≡ signed_request_at start.entry.input.now start.entry.at }
{
    let Start { input, at } = start;
    if input.len() - at < SIGNED_HEAD {
        return None;
    }
    let from = at + SIGNED_HEAD;
    let size = input[at + 1] as usize;
    if input.len() - from < size {
        return None;
    }
    Some(Request::Signed {
        from,
        to: from + size,
    })
}

// Entries (2); length (4); the text.
pub(crate) fn list_request_at(start: Start<'_>) -> Option<Request>
    ensures { result ≡ list_request_at start.entry.input.now start.entry.at }
{
    let Start { input, at } = start;
    if input.len() - at < LIST_HEAD {
        return None;
    }
    let from = at + LIST_HEAD;
    let room = two_octets(input, at + 1);
    let octets = four_octets(input, at + 3) as usize;
    if input.len() - from < octets {
        return None;
    }
    if MOST_ENTRIES < room {
        return None;
    }
    Some(Request::List {
        room,
        from,
        to: from + octets,
    })
}

// Reading (1); template number (2).
pub(crate) fn offsets_request_at(start: Start<'_>) -> Option<Request>
    ensures { result ≡ offsets_request_at start.entry.input.now start.entry.at }
{
    let Start { input, at } = start;
    if input.len() - at < OFFSETS_HEAD {
        return None;
    }
    let Some(reading) = reading_of(input[at + 1]) else {
        return None;
    };
    Some(Request::Offsets {
        reading,
        template: two_octets(input, at + 2),
        to: at + OFFSETS_HEAD,
    })
}

// The reading of templates that a number names.
fn reading_of(number: u8) -> Option<TemplateReading>
    ensures { result ≡ reading_of number }
{
    match number {
        AS_CRATE => Some(TemplateReading::AsCrate),
        BY_MANUAL => Some(TemplateReading::ByManual),
        _ => None,
    }
}
