// An entry's line, written from its end: each piece is stored right before the pieces that follow
// it. So a number's digits come out last first, and need not be counted before.
ghost use Rattle.std.specs.Prelude.{◌≡◌, ◌∷◌, ◌++◌, ◌+◌, ◌≤◌};
ghost use Rattle.entries.specs.Decimal.{decimal};
ghost use Rattle.entries.specs.Entries.{colon, none_text, octet_text, unit_text, time_text};
ghost use Rattle.entries.specs.Entries.{spelled_of};
ghost use Rattle.entries.specs.Put.{RoomFor, PutBefore};

use crate::{Entry, MOST_LINE, Spelled};
use products::ForecastTime;

// The digits of a number.
fn put_number(dest: &mut [u8], end: usize, number: u64) -> usize
    requires { RoomFor 20 end dest.old }
    ensures short { end ≤ result + 20 }
    ensures text { PutBefore end (decimal number) dest.old result
        dest.new }
{
    let mut at = end;
    let mut left = number;
    while 10 <= left {
        at -= 1;
        dest[at] = b'0' + (left % 10) as u8;
        left /= 10;
    }
    at -= 1;
    dest[at] = b'0' + left as u8;
    at
}

// A number behind a colon.
fn put_number_field(dest: &mut [u8], end: usize, number: u64) -> usize
    requires { RoomFor 21 end dest.old }
    ensures short { end ≤ result + 21 }
    ensures text { PutBefore end (colon ∷ decimal number) dest.old result
        dest.new }
{
    let at = put_number(dest, end, number) - 1;
    dest[at] = b':';
    at
}

// `none` behind a colon.
fn put_none_field(dest: &mut [u8], end: usize) -> usize
    requires { RoomFor 5 end dest.old }
    ensures { PutBefore end (colon ∷ none_text) dest.old result
        dest.new }
{
    let at = end - 5;
    dest[at] = b':';
    dest[at + 1] = b'n';
    dest[at + 2] = b'o';
    dest[at + 3] = b'n';
    dest[at + 4] = b'e';
    at
}

// One of the last five fields.
fn put_octet_field(dest: &mut [u8], end: usize, octet: Option<u8>) -> usize
    requires { RoomFor 21 end dest.old }
    ensures short { end ≤ result + 5 }
    ensures text { PutBefore end (colon ∷ octet_text octet) dest.old result
        dest.new }
{
    match octet {
        Some(number) => put_number_field(dest, end, number as u64),
        None => put_none_field(dest, end),
    }
}

// Two of them: unit and time.
fn put_time_fields(dest: &mut [u8], end: usize, time: Option<ForecastTime>) -> usize
    requires { RoomFor 32 end dest.old }
    ensures short { end ≤ result + 15 }
    ensures text { PutBefore end ((colon ∷ unit_text time) ++ (colon ∷ time_text time))
        dest.old result dest.new }
{
    match time {
        Some(given) => {
            let at = put_number_field(dest, end, given.time as u64);
            put_number_field(dest, at, given.unit as u64)
        }
        None => {
            let at = put_none_field(dest, end);
            put_none_field(dest, at)
        }
    }
}

// Writes the line of an entry at the end of 98 octets, behind zeros, and tells where it starts.
pub fn spell(entry: Entry) -> Spelled
    ensures { result ≡ spelled_of entry }
{
    let offset = entry.offset;
    let category = entry.category;
    let number = entry.number;
    let time = entry.time;
    let surface = entry.surface;
    let mut octets = [0; MOST_LINE];
    let mut at = MOST_LINE - 1;
    octets[at] = b'\n';
    at = put_octet_field(&mut octets, at, surface);
    at = put_time_fields(&mut octets, at, time);
    at = put_octet_field(&mut octets, at, number);
    at = put_octet_field(&mut octets, at, category);
    at = put_number_field(&mut octets, at, entry.discipline as u64);
    at = put_number_field(&mut octets, at, offset.0);
    at = put_number_field(&mut octets, at, entry.submessage);
    let start = put_number(&mut octets, at, entry.message);
    Spelled { octets, start }
}
