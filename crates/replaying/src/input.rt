// The room that standard input is read into, how it is read, and how much of it the programs take.
ghost use Rattle.std.specs.Prelude.{◌≡◌, ◌≤◌, IfOk, length};

use std::io;
use std::io::Read;

// The longest list of requests (docs/REPLAY.md).
pub(crate) const MOST_REQUESTS: usize = 262_144;

// The longest file that `gribwalk` walks (document 01, "Sample files").
pub(crate) const MOST_WALKED: usize = 65_536;

// One octet more than either, which tells an input that is longer.
pub(crate) const ROOM: usize = MOST_REQUESTS + 1;

// Zeros. That there are `ROOM` is all that lending them as a slice asks.
pub(crate) fn empty_room() -> [u8; ROOM]
    ensures { ROOM ≡ length result }
{
    [0; ROOM]
}

// Reads until the room is full or the input ends, and answers how many octets it put at the room's
// start.
pub(crate) fn read_full(input: &mut impl io::Read, room: &mut [u8]) -> io::Result<usize>
    ensures { IfOk result (λ size. size ≤ length room.new) }
{
    let mut size: usize = 0;
    while size < room.len() {
        let more = input.read(&mut room[size..])?;
        if more == 0 {
            break;
        }
        size += more;
    }
    Ok(size)
}
