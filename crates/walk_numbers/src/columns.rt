// A line of the submessage table as fifteen numbers.
ghost use Rattle.std.specs.Prelude.{◌≡◌, ◌+◌, ◌*◌, ◌/◌, ◌<◌, ◌≤◌, length};
ghost use Rattle.walk_numbers.specs.Numbers.{is_there, place_or_0, line_numbers};
ghost use Rattle.standing.specs.Put.{put_at};

use index::Line;
use order::Place;
use standing::put_numbers;

// Numbers of a line: message, submessage, 1 or 0 for whether there is a section 2, 1 or 0 for whether
// the message is closed, nine places, the message's octet offset and total length.
pub(crate) const LINE: usize = 15;

// 1 or 0 for whether there is a place.
fn is_there(place: Option<Place>) -> u64
    ensures { result ≡ is_there place }
{
    match place {
        Some(_) => 1,
        None => 0,
    }
}

// The place; where there is none, a number that says nothing.
fn place_or_0(place: Option<Place>) -> u64
    ensures { result ≡ place_or_0 place }
{
    match place {
        Some(place) => place.0,
        None => 0,
    }
}

// The fifteen numbers of a line.
fn line_numbers(line: Line) -> [u64; LINE]
    ensures { result ≡ line_numbers line }
{
    let local = line.local;
    let indicator = line.indicator;
    let identification = line.identification;
    let grid = line.grid;
    let product = line.product;
    let representation = line.representation;
    let bitmap = line.bitmap;
    let values = line.values;
    let end = line.end;
    let span = line.span;
    let offset = span.offset;
    [
        line.message,
        line.submessage,
        is_there(local),
        is_there(end),
        indicator.0,
        identification.0,
        place_or_0(local),
        grid.0,
        product.0,
        representation.0,
        bitmap.0,
        values.0,
        place_or_0(end),
        offset.0,
        span.total,
    ]
}

// Stores a line at its slot.
pub(crate) fn put_line(lines: &mut [u64], slot: u64, line: Line)
    requires { slot < length lines.old / 15 }
    ensures { lines.new ≡ put_at (slot * 15) (line_numbers line) lines.old }
{
    put_numbers(lines, slot as usize * LINE, &line_numbers(line));
}
