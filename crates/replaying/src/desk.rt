// A walk for whoever owns no table of lines, as a program does: the desk owns 512 lines, lends
// some of them, and hands all back by value.
ghost use Rattle.std.specs.Prelude.{◌≡◌, min, length};
ghost use Rattle.replaying.specs.Desk.{unset, desk_walk, desk_lines};

use framing::Offset;
use index::{Line, Span};
use order::Place;
use walk::{Answer, walk};

// The lines of a desk.
pub(crate) const LINES: usize = 512;

// The largest section table: 2,048 rows of three numbers.
pub(crate) const NUMBERS: usize = 6_144;

#[derive(Clone, Copy)]
pub(crate) struct Desk {
    pub answer: Answer,
    pub lines: [Line; LINES],
}

// Zeros. That there are `NUMBERS` is all that lending a part of them asks.
pub(crate) fn empty_table() -> [u64; NUMBERS]
    ensures { NUMBERS ≡ length result }
{
    [0; NUMBERS]
}

// A line that nothing was stored into: a number that no file gives, so that a stored line can be
// told from it.
fn unset_line() -> Line
    ensures { result ≡ unset }
{
    let none = Place(u64::MAX);
    Line {
        message: u64::MAX,
        submessage: u64::MAX,
        indicator: none,
        identification: none,
        local: Some(none),
        grid: none,
        product: none,
        representation: none,
        bitmap: none,
        values: none,
        end: Some(none),
        span: Span {
            offset: Offset(u64::MAX),
            total: u64::MAX,
        },
    }
}

// Walks a file with so many of the desk's lines lent.
pub(crate) fn walk_at_desk(file: &[u8], rows: &mut [u64], room: usize) -> Desk
    ensures answer { result.answer
        ≡ (desk_walk file.now rows.old room).answer }
    ensures lines { result.lines ≡ desk_lines file.now rows.old room }
    ensures rows { rows.new
        ≡ (desk_walk file.now rows.old room).rows }
{
    let most = room.min(LINES);
    let unset = unset_line();
    let mut lines = [unset; LINES];
    let answer = walk(file, &mut *rows, &mut lines[..most]);
    Desk { answer, lines }
}
