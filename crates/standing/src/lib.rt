// What every walk in lent tables keeps: where it stands, by value, and the rows of the sections
// that it passed. What is in force is not here: its places are written one by one, and a copy of
// all eight at each section would cost half as much as the rest; where the message stands only its
// section 0 changes.
#![tactic(auto)]

ghost use Rattle.std.specs.Prelude.{◌≡◌};
ghost use Rattle.standing.specs.Put.{row_put, numbers_put};
ghost use Rattle.standing.specs.Standing.{one_more, total_of, span_after, passed_row};

use framing::{Cursor, Section};
use index::{Listed, Span};
use order::Place;
use reading::Reading;
use sections::Indicator;

// Numbers of a row: section number, offset, length.
pub const ROW: usize = 3;

#[derive(Clone, Copy)]
pub struct Standing {
    // Where the next section is looked for.
    pub reading: Reading,
    // So many sections and lines are told.
    pub sections: u64,
    pub lines: u64,
    // The message and the submessage in hand, each counted from 0.
    pub message: u64,
    pub submessage: u64,
    // The section passed last.
    pub last: Listed,
}

// One more, up to the largest number, of a count that no file brings to its end.
pub fn one_more(n: u64) -> u64
    ensures { result ≡ one_more n }
{
    if n < u64::MAX {
        return n + 1;
    }
    n
}

// The total length of a message of which so much is left behind its section 0. Eight octets state
// it, so that no file brings the sum to its end. Beyond 2^64 it starts again at 0; it is written out,
// and not std's sum that wraps, so that all the code that runs is this repository's.
fn total_of(rest: u64) -> u64
    ensures { result ≡ total_of rest }
{
    let own = Indicator::WHOLE_SIZE as u64;
    let most = u64::MAX - own;
    if rest <= most {
        return rest + own;
    }
    rest - most - 1
}

// Where the message in hand stands, behind a section, by what is left of it: a section 0 says it.
pub fn span_after(before: Span, section: Section, next: Cursor) -> Span
    ensures { result ≡ span_after before section next }
{
    if section.number == Indicator::NUMBER {
        let offset = section.offset;
        return Span {
            offset,
            total: total_of(next.rest),
        };
    }
    before
}

// Where a walk stands once a section is passed: one section more, and this one the last.
pub fn passed_row(at: Standing, section: Section, next: Reading) -> Standing
    ensures { result ≡ passed_row at section next }
{
    let place = Place(at.sections);
    Standing {
        reading: next,
        sections: one_more(at.sections),
        lines: at.lines,
        message: at.message,
        submessage: at.submessage,
        last: Listed { place, section },
    }
}

// Stores a section's row at its place; a table without such a place stays as it was.
pub fn put_row(rows: &mut [u64], place: u64, section: Section)
    ensures { rows.new ≡ row_put place section rows.old }
{
    let room = (rows.len() / ROW) as u64;
    if room <= place {
        return;
    }
    let offset = section.offset;
    let i = place as usize * ROW;
    rows[i] = section.number;
    rows[i + 1] = offset.0;
    rows[i + 2] = section.length;
}

// Stores numbers from an index on; a table without room for all of them there stays as it was.
pub fn put_numbers(table: &mut [u64], at: usize, numbers: &[u64])
    ensures { table.new ≡ numbers_put at numbers.now table.old }
{
    if table.len() < numbers.len() {
        return;
    }
    if table.len() - numbers.len() < at {
        return;
    }
    for (i, number) in numbers.iter().enumerate() {
        table[at + i] = *number;
    }
}
