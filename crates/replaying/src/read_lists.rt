// The answer to a list that is read (docs/REPLAY.md, kind `R`). The entries are printed from the
// table, their count from the answer.
ghost use Rattle.std.specs.Prelude.{◌≡◌, ◌*◌, ◌≤◌, length};

use crate::printing::{end_fields, field, line_end, no_field, text};
use crate::tables::{fill, numbers_untouched, untouched_line};
use crate::walk_lines::at_most;
use lists::{list_end, read_list};
use std::io;

// Numbers of an entry: message, submessage, offset, discipline; and for category, number, time (its
// unit and itself) and surface, before what each says, whether there is one.
const ENTRY: usize = 13;

// The largest table: 512 entries.
const NUMBERS: usize = 512 * ENTRY;

// Reads a list with room for so many entries lent.
pub(crate) fn answer_list(out: &mut impl io::Write, list: &[u8], room: u16) -> io::Result<()>
    requires { room ≤ 512 }
{
    let mut table = empty_entries();
    let n = room as usize * ENTRY;
    read_with(out, list, &mut table[..n])
}

// Zeros. That there are `NUMBERS` is all that lending a part of them asks.
fn empty_entries() -> [u64; NUMBERS]
    ensures { NUMBERS ≡ length result }
{
    [0; NUMBERS]
}

// The entries are the table's, as far as it goes.
fn read_with(out: &mut impl io::Write, list: &[u8], table: &mut [u64]) -> io::Result<()> {
    fill(&mut *table);
    let answer = read_list(list, &mut *table);
    let told = at_most(answer.entries, table.len() / ENTRY);
    text(out, b"list")?;
    end_fields(out, list_end(answer.end))?;
    field(out, answer.entries)?;
    line_end(out)?;
    entry_lines(out, &*table, told)?;
    untouched_line(out, numbers_untouched(&*table, told * ENTRY))
}

fn entry_lines(out: &mut impl io::Write, table: &[u64], count: usize) -> io::Result<()>
    requires { count * 13 ≤ length table.now }
{
    for entry in 0..count {
        let from = entry * ENTRY;
        entry_line(out, &table[from..from + ENTRY])?;
    }
    Ok(())
}

// The nine fields of an entry's thirteen numbers.
fn entry_line(out: &mut impl io::Write, entry: &[u64]) -> io::Result<()>
    requires { length entry.now ≡ 13 }
{
    text(out, b"entry")?;
    field(out, entry[0])?;
    field(out, entry[1])?;
    field(out, entry[2])?;
    field(out, entry[3])?;
    known_field(out, entry[4], entry[5])?;
    known_field(out, entry[6], entry[7])?;
    known_field(out, entry[8], entry[9])?;
    known_field(out, entry[8], entry[10])?;
    known_field(out, entry[11], entry[12])?;
    line_end(out)
}

// A field behind the number that says whether there is one.
fn known_field(out: &mut impl io::Write, known: u64, number: u64) -> io::Result<()> {
    if known == 0 {
        no_field(out)
    } else {
        field(out, number)
    }
}
