// One read.
ghost use Rattle.std.specs.Prelude.{◌≡◌, ◌+◌, ◌^◌, ◌<◌, ◌≤◌, length};
ghost use Rattle.sections.specs.Kinds.{header_size, indicator_size, least_payload_of};
ghost use Rattle.framing.specs.Read.{Over};
ghost use Rattle.framing.specs.Framing.{section_at, refused_at, without, framed, read_at};
ghost use Rattle.framing.specs.Framing.{indicator_at, end_at, header_at, payload_at};
ghost use Rattle.framing.specs.Framing.{is_cut, missing};

use crate::search::{next_start, says};
use octets::{be32, be64};
use sections::{BitMap, DataSection, EndSection, HEADER_SIZE, Indicator, least_payload_of};

// An octet of the file, counted from 0. A section's place in the list is another quantity.
#[derive(Clone, Copy)]
pub struct Offset(pub u64);

// A section as the table lists it.
#[derive(Clone, Copy)]
pub struct Section {
    pub number: u64,
    pub offset: Offset,
    pub length: u64,
}

// Where the next read is made, and how many octets of the message are still to come.
#[derive(Clone, Copy)]
pub struct Cursor {
    pub at: Offset,
    pub rest: u64,
}

// Why a section can't be read, in the order of document 01's refusals 2 to 9.
#[derive(Clone, Copy)]
pub enum Fault {
    // The file ends inside a header, inside section 8 or inside a payload that is read: so many
    // octets are missing, one at least, and no more than a length of four octets can state.
    Cut(u32),
    // The edition is not 2.
    OtherEdition(u64),
    // The total length has no room for section 0 itself.
    TotalUnder16,
    // Section 8 is not "7777".
    NotEndMark,
    // The length has no room for the header itself.
    LengthUnder5(u64),
    // The number in a header is not 1 to 7.
    UnknownNumber(u64),
    // The payload, of this size, is under its kind's least.
    PayloadUnderLeast(u64),
    // The section, of this length, is longer than what its message has left.
    LongerThanRest(u64),
}

// A read as every way through the code answers it, each field always set: an enum whose variants
// differ costs a step a dozen copies.
#[derive(Clone, Copy)]
pub struct Framed {
    pub how: How,
    // The section; of one that is refused the offset alone says something.
    pub section: Section,
    pub next: Cursor,
}

#[derive(Clone, Copy)]
pub enum How {
    Whole,
    Over,
    Refused(Fault),
}

fn without(how: How, at: u64) -> Framed
    ensures { result ≡ without how at }
{
    Framed {
        how,
        section: Section {
            number: 0,
            offset: Offset(at),
            length: 0,
        },
        next: Cursor {
            at: Offset(0),
            rest: 0,
        },
    }
}

fn over() -> Framed
    ensures { result ≡ framed Over }
{
    without(How::Over, 0)
}

fn refuse(fault: Fault, at: usize) -> Framed
    ensures { result ≡ framed (refused_at fault at) }
{
    without(How::Refused(fault), at as u64)
}

fn section_at(number: u64, at: usize, length: u32, rest: u64) -> Framed
    requires { at + length < 2 ^ 64 }
    ensures { result ≡ framed (section_at number at length rest) }
{
    let offset = at as u64;
    let octets = length as u64;
    Framed {
        how: How::Whole,
        section: Section {
            number,
            offset: Offset(offset),
            length: octets,
        },
        next: Cursor {
            at: Offset(offset + octets),
            rest,
        },
    }
}

fn other_edition(edition: u8) -> Fault
    ensures { result ≡ Fault.OtherEdition edition }
{
    Fault::OtherEdition(edition as u64)
}

// Section 0, from its G on.
fn indicator_at(file: &[u8], g: usize) -> Framed
    requires { g + indicator_size ≤ length file.now }
    ensures { result ≡ framed (indicator_at file.now g) }
{
    let edition = file[g + 7];
    if edition != Indicator::EDITION {
        return refuse(other_edition(edition), g);
    }
    let total = be64([
        file[g + 8],
        file[g + 9],
        file[g + 10],
        file[g + 11],
        file[g + 12],
        file[g + 13],
        file[g + 14],
        file[g + 15],
    ]);
    if total < Indicator::WHOLE_SIZE as u64 {
        return refuse(Fault::TotalUnder16, g);
    }
    section_at(
        Indicator::NUMBER,
        g,
        Indicator::WHOLE_SIZE as u32,
        total - Indicator::WHOLE_SIZE as u64,
    )
}

// Section 8, where at least one octet is left.
fn end_at(file: &[u8], at: usize) -> Framed
    requires { at ≤ length file.now }
    ensures { result ≡ framed (end_at file.now at) }
{
    let left = file.len() - at;
    if left < EndSection::WHOLE_SIZE {
        return refuse(Fault::Cut((EndSection::WHOLE_SIZE - left) as u32), at);
    }
    if says(file, at, b'7', b'7', b'7', b'7') {
        section_at(EndSection::NUMBER, at, EndSection::WHOLE_SIZE as u32, 0)
    } else {
        refuse(Fault::NotEndMark, at)
    }
}

// Does the file, with so many octets left from the header on, end inside the payload? Section 7 is
// skipped unread; of a section 6 the indicator is read whatever its length says.
fn is_cut(number: u64, length: u32, left: usize) -> bool
    ensures { result ≡ is_cut number length left }
{
    if number == DataSection::NUMBER {
        return false;
    }
    if left < length as usize {
        return true;
    }
    if number == BitMap::NUMBER {
        return left < HEADER_SIZE + BitMap::LEAST_PAYLOAD;
    }
    false
}

// The octets missing of a payload that is cut: its stated end less the file's, both counted from
// the header on; 1, the indicator, of a section 6 of length 5.
fn missing(length: u32, left: usize) -> u32
    ensures { result ≡ missing length left }
{
    let stated = length as usize;
    if left < stated {
        return (stated - left) as u32;
    }
    BitMap::LEAST_PAYLOAD as u32
}

// A section whose header says its number and its length, of which the header itself is a part.
fn payload_at(at: usize, number: u8, length: u32, left: usize, rest: u64) -> Framed
    requires { (at + length < 2 ^ 64) × (header_size ≤ length) }
    ensures { result ≡ framed (payload_at (least_payload_of number) at number length left rest) }
{
    let known = least_payload_of(number as u64);
    let Some(least) = known else {
        return refuse(Fault::UnknownNumber(number as u64), at);
    };
    if is_cut(number as u64, length, left) {
        return refuse(Fault::Cut(missing(length, left)), at);
    }
    let payload = length - HEADER_SIZE as u32;
    if (payload as usize) < least {
        return refuse(Fault::PayloadUnderLeast(payload as u64), at);
    }
    if rest < length as u64 {
        return refuse(Fault::LongerThanRest(length as u64), at);
    }
    section_at(number as u64, at, length, rest - length as u64)
}

// A section with a header, where at least one octet is left.
fn header_at(file: &[u8], at: usize, rest: u64) -> Framed
    requires { at ≤ length file.now }
    ensures { result ≡ framed (header_at file.now at rest) }
{
    let left = file.len() - at;
    if left < HEADER_SIZE {
        return refuse(Fault::Cut((HEADER_SIZE - left) as u32), at);
    }
    let length = be32([file[at], file[at + 1], file[at + 2], file[at + 3]]);
    if length < HEADER_SIZE as u32 {
        return refuse(Fault::LengthUnder5(length as u64), at);
    }
    payload_at(at, file[at + 4], length, left, rest)
}

// What stands at the cursor: between messages (rest 0) the next section 0, else section 8 where
// just its size is left, else a section with a header; and the next cursor. Or that the input is
// over, or a fault, 2 to 9, with its offset and detail.
pub fn framed_at(file: &[u8], cursor: Cursor) -> Framed
    ensures { result ≡ framed (read_at file.now cursor.at.0 cursor.rest) }
{
    let offset = cursor.at;
    let rest = cursor.rest;
    let at = offset.0 as usize;
    if rest == 0 {
        let found = next_start(file, at);
        return match found {
            Some(g) => indicator_at(file, g),
            None => over(),
        };
    }
    if file.len() <= at {
        return over();
    }
    if rest == EndSection::WHOLE_SIZE as u64 {
        end_at(file, at)
    } else {
        header_at(file, at, rest)
    }
}
