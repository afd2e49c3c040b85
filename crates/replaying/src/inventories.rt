// The answer to an inventory (docs/REPLAY.md, kind `I`).
ghost use Rattle.std.specs.Prelude.{◌≤◌};

use crate::stores::{store_lines, unwritten};
use inventory::{inventory, inventory_end};
use std::io;

// Writes the inventory of a file into a text buffer of so many octets.
pub(crate) fn answer_inventory(out: &mut impl io::Write, file: &[u8], room: u32) -> io::Result<()>
    requires { room ≤ 262144 }
{
    let mut text = unwritten();
    let n = room as usize;
    inventory_into(out, file, &mut text[..n])
}

fn inventory_into(out: &mut impl io::Write, file: &[u8], text: &mut [u8]) -> io::Result<()> {
    let answer = inventory(file, &mut *text);
    store_lines(out, b"inventory", inventory_end(answer), &*text)
}
