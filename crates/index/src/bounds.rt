// How long a file may be, and how much the lent tables hold.

// A file is at most 2^40 octets.
pub const MOST_OCTETS: u64 = 1_099_511_627_776;

// How many rows and lines the lent tables hold.
#[derive(Clone, Copy)]
pub struct Room {
    pub rows: u64,
    pub lines: u64,
}
