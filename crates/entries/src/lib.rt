// An entry of the inventory (document 02, Ticket 1): one line of text for each submessage.
#![tactic(auto)]

mod line;

use framing::Offset;
pub use line::spell;
use products::ForecastTime;

#[derive(Clone, Copy)]
pub struct Entry {
    // Each counted from 0.
    pub message: u64,
    pub submessage: u64,
    // Where section 0 stands in the file.
    pub offset: Offset,
    pub discipline: u8,
    pub category: Option<u8>,
    pub number: Option<u8>,
    pub time: Option<ForecastTime>,
    // The type of the first fixed surface.
    pub surface: Option<u8>,
}

// Octets of the longest line.
pub const MOST_LINE: usize = 98;

// The line of an entry: the octets from `start` on. It is written from its end, so that no number
// need be measured before it is spelled.
#[derive(Clone, Copy)]
pub struct Spelled {
    pub octets: [u8; MOST_LINE],
    pub start: usize,
}
