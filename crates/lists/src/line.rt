// A line of a list, read at a place of the text: each octet is read once. A function answers what
// it read and the place behind the octet that closes it.
ghost use Rattle.std.specs.Prelude.{◌≡◌, ◌≤◌, drop};
ghost use Rattle.lists.specs.Line.{
  next_is,
  is_digit,
  take_digits,
  take_number,
  none_next,
  take_octet,
  take_time,
  take_four,
  take_five,
  take_line,
  number_taken,
  octet_taken,
  time_taken,
  four_taken,
  five_taken,
  line_taken,
};

use entries::Entry;
use framing::Offset;
use index::MOST_OCTETS;
use products::ForecastTime;

const MOST_OCTET: u64 = 255;

const MOST_TIME: u64 = 4294967295;

const COLON: u8 = b':';

const LINE_FEED: u8 = b'\n';

const BEHIND_NINE: u8 = b'9' + 1;

#[derive(Clone, Copy)]
struct FirstFour {
    message: u64,
    submessage: u64,
    offset: Offset,
    discipline: u8,
}

#[derive(Clone, Copy)]
struct LastFive {
    category: Option<u8>,
    number: Option<u8>,
    time: Option<ForecastTime>,
    surface: Option<u8>,
}

// Does this octet stand at this place?
fn next_is(octet: u8, text: &[u8], at: usize) -> bool
    ensures { result ≡ next_is octet (drop at text.now) }
{
    if text.len() <= at {
        return false;
    }
    text[at] == octet
}

fn is_digit(octet: u8) -> bool
    ensures { result ≡ is_digit octet }
{
    if octet < b'0' {
        return false;
    }
    octet < BEHIND_NINE
}

// Reads on behind a value. It stops as soon as the value passes the most, so that no value is too
// large for its digits.
fn digits_at(text: &[u8], at: usize, most: u64, close: u8, first: u64) -> Option<(u64, usize)>
    requires most { most ≤ 1099511627776 }
    requires first { first ≤ 1099511627776 }
    ensures { number_taken text.now result
        ≡ take_digits most close first (drop at text.now) }
{
    let mut value = first;
    // Counted by hand: with `for` the reader of a list takes 15.4 instructions an octet, and at most
    // 15 are wanted; so it takes 13.9.
    let mut i = at;
    while i < text.len() {
        let octet = text[i];
        i += 1;
        if !is_digit(octet) {
            if octet == close {
                return Some((value, i));
            }
            return None;
        }
        value = value * 10 + (octet - b'0') as u64;
        if most < value {
            return None;
        }
    }
    None
}

// A number: no leading zero, and at most `most`.
fn number_at(text: &[u8], at: usize, most: u64, close: u8) -> Option<(u64, usize)>
    requires { most ≤ 1099511627776 }
    ensures { number_taken text.now result
        ≡ take_number most close (drop at text.now) }
{
    if text.len() <= at {
        return None;
    }
    let first = text[at];
    if first == b'0' {
        if next_is(close, text, at + 1) {
            return Some((0, at + 2));
        }
        return None;
    }
    if !is_digit(first) {
        return None;
    }
    digits_at(text, at + 1, most, close, (first - b'0') as u64)
}

// Does `none` stand at this place, and this octet behind it?
fn none_next(close: u8, text: &[u8], at: usize) -> bool
    ensures { result ≡ none_next close (drop at text.now) }
{
    if !next_is(b'n', text, at) {
        return false;
    }
    if !next_is(b'o', text, at + 1) {
        return false;
    }
    if !next_is(b'n', text, at + 2) {
        return false;
    }
    if !next_is(b'e', text, at + 3) {
        return false;
    }
    next_is(close, text, at + 4)
}

// A field that can be none.
fn octet_at(text: &[u8], at: usize, close: u8) -> Option<(Option<u8>, usize)>
    ensures { octet_taken text.now result
        ≡ take_octet close (drop at text.now) }
{
    if none_next(close, text, at) {
        return Some((None, at + 5));
    }
    let Some((n, next)) = number_at(text, at, MOST_OCTET, close) else {
        return None;
    };
    Some((Some(n as u8), next))
}

// Time unit and time are both none or neither.
fn time_at(text: &[u8], at: usize) -> Option<(Option<ForecastTime>, usize)>
    ensures { time_taken text.now result ≡ take_time (drop at text.now) }
{
    if none_next(COLON, text, at) {
        if none_next(COLON, text, at + 5) {
            return Some((None, at + 10));
        }
        return None;
    }
    let Some((unit, behind_unit)) = number_at(text, at, MOST_OCTET, COLON) else {
        return None;
    };
    let Some((time, next)) = number_at(text, behind_unit, MOST_TIME, COLON) else {
        return None;
    };
    let fields = ForecastTime {
        unit: unit as u8,
        time: time as u32,
    };
    Some((Some(fields), next))
}

fn four_at(text: &[u8], at: usize) -> Option<(FirstFour, usize)>
    ensures { four_taken text.now result ≡ take_four (drop at text.now) }
{
    let Some((message, second)) = number_at(text, at, MOST_OCTETS, COLON) else {
        return None;
    };
    let Some((submessage, third)) = number_at(text, second, MOST_OCTETS, COLON) else {
        return None;
    };
    let Some((offset, fourth)) = number_at(text, third, MOST_OCTETS, COLON) else {
        return None;
    };
    let Some((discipline, next)) = number_at(text, fourth, MOST_OCTET, COLON) else {
        return None;
    };
    let fields = FirstFour {
        message,
        submessage,
        offset: Offset(offset),
        discipline: discipline as u8,
    };
    Some((fields, next))
}

fn five_at(text: &[u8], at: usize) -> Option<(LastFive, usize)>
    ensures { five_taken text.now result ≡ take_five (drop at text.now) }
{
    let Some((category, second)) = octet_at(text, at, COLON) else {
        return None;
    };
    let Some((number, third)) = octet_at(text, second, COLON) else {
        return None;
    };
    let Some((time, last)) = time_at(text, third) else {
        return None;
    };
    let Some((surface, next)) = octet_at(text, last, LINE_FEED) else {
        return None;
    };
    let fields = LastFive {
        category,
        number,
        time,
        surface,
    };
    Some((fields, next))
}

// A line with the line feed that closes it. A line feed inside is no part of any field.
pub(crate) fn line_at(text: &[u8], at: usize) -> Option<(Entry, usize)>
    ensures { line_taken text.now result ≡ take_line (drop at text.now) }
{
    let Some((four, fifth)) = four_at(text, at) else {
        return None;
    };
    let Some((five, next)) = five_at(text, fifth) else {
        return None;
    };
    let offset = four.offset;
    let category = five.category;
    let number = five.number;
    let time = five.time;
    let surface = five.surface;
    let entry = Entry {
        message: four.message,
        submessage: four.submessage,
        offset,
        discipline: four.discipline,
        category,
        number,
        time,
        surface,
    };
    Some((entry, next))
}
