// The lines that both programs print of a walk: its counts, a section, a submessage, its end.
ghost use Rattle.std.specs.Prelude.{◌≡◌, ◌≤◌, min};

use crate::desk::LINES;
use crate::printing::{decimal, field, line_end, outcome, text};
use index::{Line, Outcome};
use order::Place;
use std::io;
use walk::Answer;

// The counts, on a line's rest.
pub(crate) fn counts(out: &mut impl io::Write, answer: Answer) -> io::Result<()> {
    text(out, b"sections ")?;
    decimal(out, answer.sections)?;
    text(out, b" submessages ")?;
    decimal(out, answer.submessages)?;
    text(out, b" messages ")?;
    decimal(out, answer.messages)?;
    line_end(out)
}

// The first lines of a desk, as many as it has at the most, each behind what its line begins with.
pub(crate) fn submessages(
    out: &mut impl io::Write,
    head: &[u8],
    lines: [Line; LINES],
    count: u64,
) -> io::Result<()> {
    first_lines(out, head, lines, at_most(count, LINES))
}

fn first_lines(
    out: &mut impl io::Write,
    head: &[u8],
    lines: [Line; LINES],
    count: usize,
) -> io::Result<()>
    requires { count ≤ 512 }
{
    for i in 0..count {
        text(out, head)?;
        submessage(out, lines[i])?;
    }
    Ok(())
}

// A section's number, offset and length.
pub(crate) fn section_line(
    out: &mut impl io::Write,
    head: &[u8],
    number: u64,
    offset: u64,
    octets: u64,
) -> io::Result<()> {
    text(out, head)?;
    field(out, number)?;
    field(out, offset)?;
    field(out, octets)?;
    line_end(out)
}

// Message and submessage number, then the nine places, with `-` for no section 2 and `open` for a
// message that goes on; its octet offset and total length.
fn submessage(out: &mut impl io::Write, line: Line) -> io::Result<()> {
    decimal(out, line.message)?;
    text(out, b".")?;
    decimal(out, line.submessage)?;
    field(out, line.indicator.0)?;
    field(out, line.identification.0)?;
    local_use(out, line.local)?;
    field(out, line.grid.0)?;
    field(out, line.product.0)?;
    field(out, line.representation.0)?;
    field(out, line.bitmap.0)?;
    field(out, line.values.0)?;
    message_end(out, line.end)?;
    field(out, line.span.offset.0)?;
    field(out, line.span.total)?;
    line_end(out)
}

fn local_use(out: &mut impl io::Write, local: Option<Place>) -> io::Result<()> {
    match local {
        Some(place) => field(out, place.0),
        None => text(out, b" -"),
    }
}

fn message_end(out: &mut impl io::Write, end: Option<Place>) -> io::Result<()> {
    match end {
        None => text(out, b" open"),
        Some(place) => field(out, place.0),
    }
}

// How a walk ended.
pub(crate) fn end(out: &mut impl io::Write, how: Outcome) -> io::Result<()> {
    text(out, b"end")?;
    outcome(out, how)?;
    line_end(out)
}

// A count, as far as a table goes: whatever an answer says, no index is past the table's end.
pub(crate) fn at_most(count: u64, room: usize) -> usize
    ensures { result ≡ min count room }
{
    count.min(room as u64) as usize
}
