// The walk of a file, with both tables lent as numbers.
ghost use Rattle.std.specs.Prelude.{◌≡◌};
ghost use Rattle.walk_numbers.specs.Numbers.{walk_numbers};

use walk_numbers::{WalkAnswer, walk_numbers};

// Walks a file. The tables are lent as numbers, three to a section's row and fifteen to a line; what
// is left over is no room. Lines that were stored before a refusal stand, and room beyond the
// counts is untouched.
#[unsafe(no_mangle)]
pub extern "C" fn buttresk_walk(file: &[u8], rows: &mut [u64], lines: &mut [u64]) -> WalkAnswer
    ensures answer { result
        ≡ (walk_numbers file.now rows.old lines.old).answer }
    ensures rows { rows.new
        ≡ (walk_numbers file.now rows.old lines.old).rows }
    ensures lines { lines.new
        ≡ (walk_numbers file.now rows.old lines.old).lines }
{
    walk_numbers(file, rows, lines)
}
