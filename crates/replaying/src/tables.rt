// A lent table of numbers before a call and after it (docs/REPLAY.md, kinds `W` and `R`). It is
// filled before the call with numbers that no file and no list gives, so that what the call left
// alone can be told.
ghost use Rattle.std.specs.Prelude.{◌≡◌, true};
ghost use Rattle.replaying.specs.Before.{number_before, NumbersBefore};

use crate::printing::text;
use std::io;

// Number i of a table before the call.
fn number_before(i: usize) -> u64
    ensures { result ≡ number_before i }
{
    u64::MAX - i as u64
}

// Makes a table what it is before the call.
pub(crate) fn fill(table: &mut [u64])
    ensures { NumbersBefore table.new 0 }
{
    for i in 0..table.len() {
        table[i] = number_before(i);
    }
}

// Is every number from index `from` on what it was before the call?
pub(crate) fn numbers_untouched(table: &[u64], from: usize) -> bool
    ensures yes { result ≡ true → NumbersBefore table.now from }
    ensures only { NumbersBefore table.now from → result ≡ true }
{
    for i in from..table.len() {
        if table[i] != number_before(i) {
            return false;
        }
    }
    true
}

pub(crate) fn untouched_line(out: &mut impl io::Write, untouched: bool) -> io::Result<()> {
    if untouched {
        text(out, b"untouched yes\n")
    } else {
        text(out, b"untouched no\n")
    }
}
